ghost use Rattle.std.specs.Prelude.{◌≡◌, ◌+◌, ◌<◌, ◌≤◌, ◌^◌, All, IfOk, Some, slice_get, sum, option_map};
ghost use Rattle.plan_tree.specs.Parts.{parts_of};
ghost use Rattle.plan_tree.specs.Sound.{Fits, IsSound};
ghost use Rattle.controller_machine.specs.Ctl.{entries_next, want_of};
ghost use Rattle.controller_core.specs.Core.{IsLive, Runs, with_next_act, acts_made, count_in, one_if_stepped, one_if_waited, pick, pick_answer, picks, start_core, sweep_of};
ghost use Rattle.controller_core.specs.Reached.{FollowsPlan, IsOver, acts_planned};

use controller_machine::{Ctl, Ctls, Want, acts_are_few, controllers_follow, controllers_walk};
use plan_tree::{Part, Plan};
use qs_values::{List, Memory, Tape};
use std::alloc::Global;
use std::marker::Model;
use std::snapshot::Snapshot;

/// What a pick did.
#[derive(Clone, Copy, Debug, PartialEq, Eq)]
pub enum Stepped {
    /// The controller made its next act.
    Stepped,
    /// It had none left.
    Ended,
}

/// How many picks of a run stepped, and how many waited. A pick of a controller that has ended is
/// neither.
#[derive(Clone, Copy, Debug, PartialEq, Eq)]
pub struct Counts {
    pub stepped: u64,
    pub waited: u64,
}

impl Counts {
    fn none() -> Counts
        ensures { result ≡ record { stepped = 0; waited = 0 } }
    {
        Counts {
            stepped: 0,
            waited: 0,
        }
    }

    /// With one pick more.
    fn with(self, answer: Stepped) -> Counts
        requires stepped { self.stepped < 2 ^ 63 }
        requires waited { self.waited < 2 ^ 63 }
        ensures stepped { result.stepped ≡ self.stepped + one_if_stepped answer }
        ensures waited { result.waited ≡ self.waited + one_if_waited answer }
    {
        match answer {
            Stepped::Stepped => Counts {
                stepped: self.stepped + 1,
                ..self
            },
            Stepped::Ended => self,
        }
    }

    fn plus(self, more: Counts) -> Counts
        requires stepped { self.stepped + more.stepped < 2 ^ 63 }
        requires waited { self.waited + more.waited < 2 ^ 63 }
        ensures stepped { result.stepped ≡ self.stepped + more.stepped }
        ensures waited { result.waited ≡ self.waited + more.waited }
    {
        Counts {
            stepped: self.stepped + more.stepped,
            waited: self.waited + more.waited,
        }
    }
}

/// A controller, and how many acts it has made.
#[derive(Drop)]
struct Controller {
    ctl: Ctl,
    acts: u64,
}

impl Controller {
    /// Makes its next act, which touches no mailbox.
    fn go(&mut self, part: &Part)
        requires part { part.now ≡ self.old.ctl.part }
        requires next { want_of self.old.ctl ≡ Want.Go }
        requires room { entries_next self.old.ctl ≤ self.old.ctl.room }
        requires few { self.old.acts < 2 ^ 32 }
        ensures { self.new ≡ with_next_act self.old }
    {
        self.ctl.go(part);
        self.acts += 1;
    }
}

/// All controllers of a plan.
#[derive(Drop)]
pub struct Core {
    mail: u8,
    controllers: Vec<Controller>,
    plan: Snapshot<Plan>,
    tape: Snapshot<Tape>,
}

impl Model for Core {
    ghost use Rattle.std.specs.Prelude.{◌≤◌, vec_len};
    ghost use Rattle.controller_core.specs.Core.{CoreState, core_of};
    ghost use Rattle.controller_core.specs.Reached.{IsReached};

    ghost Value = { CoreState };

    ghost view = { λ c. core_of c.plan.value c.tape.value c.mail c.controllers.items };

    ghost invariant = { λ c.
        IsReached (core_of c.plan.value c.tape.value c.mail c.controllers.items)
        × (1 ≤ vec_len c.controllers)
        × (vec_len c.controllers ≤ 16) };
}

impl Core {
    /// All controllers at the start, with mailboxes for `mail` values each.
    ///
    /// # Errors
    ///
    /// `Memory` when out of memory.
    pub fn new(
        alloc: Global,
        parts: &List<Part>,
        plan: &Plan,
        tape: &Tape,
        mail: u8,
    ) -> Result<Core, Memory>
        requires sound { IsSound plan.now }
        requires fits { Fits plan.now tape.now }
        requires some_mail { 1 ≤ mail }
        requires few_mail { mail ≤ 64 }
        requires parts { parts.now ≡ parts_of plan.now }
        ensures start { IfOk result (λ c. c ≡ start_core plan.now tape.now mail) }
        ensures follows { IfOk result FollowsPlan }
        ensures live { IfOk result IsLive }
    {
        controllers_follow();
        let mut controllers = Vec::with_capacity(alloc, parts.len())?;
        for part in parts.as_slice() {
            let ctl = Ctl::new(alloc, part, plan, tape)?;
            controllers.push(Controller { ctl, acts: 0 })?;
        }
        Ok(Core {
            mail,
            controllers,
            plan: Snapshot::of(plan),
            tape: Snapshot::of(tape),
        })
    }

    /// A pick of controller `k`: it makes its next act, if it has one.
    pub fn step(&mut self, parts: &List<Part>, k: u8) -> Stepped
        requires parts { parts.now ≡ parts_of self.old.plan }
        requires controller { k < self.old.plan.controllers }
        ensures pick { self.new ≡ pick self.old k }
        ensures answer { result ≡ pick_answer self.old k }
        ensures follows { FollowsPlan self.new }
        ensures live { IsLive self.new }
    {
        controllers_follow();
        acts_are_few();
        let part = &parts.as_slice()[k as usize];
        let controller = &mut self.controllers[k as usize];
        if let Want::Ended = controller.ctl.next(part) {
            return Stepped::Ended;
        }
        controller.go(part);
        Stepped::Stepped
    }

    /// The picks of an order, and then sweeps over all controllers until each has ended. The counts
    /// are those of all these picks.
    pub fn run_order(&mut self, parts: &List<Part>, order: &[u8]) -> Counts
        requires parts { parts.now ≡ parts_of self.old.plan }
        requires controllers { All (λ k. k < self.old.plan.controllers) order.now }
        ensures runs { Runs order.now self.old self.new result.stepped result.waited }
        ensures over { IsOver self.old.plan self.old.tape self.old.mail self.new }
        ensures all { result.stepped + acts_made self.old
            ≡ sum (acts_planned self.old.plan self.old.tape) }
    {
        controllers_follow();
        controllers_walk();
        acts_are_few();
        let _mail = self.mail;
        let mut counts = self.pick_all(parts, order);
        loop {
            let swept = self.sweep(parts);
            if swept.stepped == 0 {
                return counts;
            }
            counts = counts.plus(swept);
        }
    }

    /// The picks of a list.
    fn pick_all(&mut self, parts: &List<Part>, order: &[u8]) -> Counts
        requires parts { parts.now ≡ parts_of self.old.plan }
        requires controllers { All (λ k. k < self.old.plan.controllers) order.now }
        ensures picks { self.new ≡ picks self.old order.now }
        ensures stepped { result.stepped ≡ count_in one_if_stepped self.old order.now }
        ensures waited { result.waited ≡ count_in one_if_waited self.old order.now }
    {
        let mut counts = Counts::none();
        for k in order {
            counts = counts.with(self.step(parts, *k));
        }
        counts
    }

    /// A pick of each controller.
    fn sweep(&mut self, parts: &List<Part>) -> Counts
        requires parts { parts.now ≡ parts_of self.old.plan }
        ensures picks { self.new ≡ picks self.old (sweep_of self.old.plan.controllers) }
        ensures stepped { result.stepped
            ≡ count_in one_if_stepped self.old (sweep_of self.old.plan.controllers) }
        ensures waited { result.waited
            ≡ count_in one_if_waited self.old (sweep_of self.old.plan.controllers) }
    {
        let mut counts = Counts::none();
        let controllers = self.controllers.len() as u8;
        for k in 0..controllers {
            counts = counts.with(self.step(parts, k));
        }
        counts
    }

    /// The state of controller `k`.
    pub fn ctl(&self, k: u8) -> &Ctl
        requires { k < self.now.plan.controllers }
        ensures { option_map (λ c. c.ctl) (slice_get self.now.controllers k) ≡ Some result.now }
    {
        let controller = &self.controllers[k as usize];
        &controller.ctl
    }
}

impl Ctls for Core {
    ghost use Rattle.controller_core.specs.Core.{states_of};

    ghost states = { states_of };

    fn count(&self) -> u8 {
        self.controllers.len() as u8
    }

    fn ctl(&self, k: u8) -> &Ctl {
        let _mail = self.mail;
        self.ctl(k)
    }
}
