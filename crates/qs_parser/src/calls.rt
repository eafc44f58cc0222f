ghost use Rattle.std.specs.Prelude.{◌≡◌, drop, length};
ghost use Rattle.std.specs.Option.{option_map};
ghost use Rattle.qs_parser.specs.steps.Asking.{IsExact, seen};
ghost use Rattle.qs_parser.specs.steps.Knot.{below};
ghost use Rattle.qs_parser.specs.steps.Tokens.{Gives};
ghost use Rattle.qs_parser.specs.steps.Statements.{call_at, ctrl_at, is_modifier, modifier_of, modifier_word, modifiers_at, negctrl_at, params_at, pow_at, signed_off};

use crate::below::{Ask, Below, Read, Tree};
use crate::expressions::{args_at, enclosed};
use crate::parts::{acted_at, count_at, name_at, stopped};
use crate::stop::Stop;
use crate::tokens::{after_sign, begins_sign};
use qs_lexer::{Token, TokenKind};
use qs_tree::{Call, Expr, Modifier};
use qs_values::List;

/// A modifier, with the `@` after it.
#[tactic(auto, unfolding(crate::specs::steps::Statements::signed_off))]
fn signed_off(
    tokens: &[Token],
    modifier: Modifier,
    left: usize,
    at: usize,
) -> Result<Read<Modifier>, Stop>
    ensures { Gives (seen tokens.now) result (signed_off modifier left (drop at tokens.now)) }
{
    let at = after_sign(tokens, at, "@")?;
    Ok(Read {
        item: modifier,
        left,
        at,
    })
}

/// A `pow`, after the word.
#[tactic(auto, unfolding(crate::specs::steps::Statements::pow_at))]
fn pow_at<F: Fn(Ask) -> Result<Read<Tree>, Stop>>(
    deeper: &Below<'_, F>,
    renew: usize,
    left: usize,
    at: usize,
) -> Result<Read<Modifier>, Stop>
    requires callable { F.IsAlwaysCallable deeper.now.read }
    requires exact { IsExact (F.post deeper.now.read) deeper.now.depth deeper.now.tokens.now }
    ensures { Gives (seen deeper.now.tokens.now) result
        (pow_at (below deeper.now.depth) renew left (drop at deeper.now.tokens.now)) }
{
    let Read { item, left, at } = enclosed(deeper, "(", ")", renew, left, at)?;
    signed_off(deeper.tokens, Modifier::Pow(item), left, at)
}

/// A `ctrl`, after the word.
#[tactic(auto, unfolding(crate::specs::steps::Statements::ctrl_at))]
fn ctrl_at<F: Fn(Ask) -> Result<Read<Tree>, Stop>>(
    deeper: &Below<'_, F>,
    renew: usize,
    left: usize,
    at: usize,
) -> Result<Read<Modifier>, Stop>
    requires callable { F.IsAlwaysCallable deeper.now.read }
    requires exact { IsExact (F.post deeper.now.read) deeper.now.depth deeper.now.tokens.now }
    ensures { Gives (seen deeper.now.tokens.now) result
        (ctrl_at (below deeper.now.depth) renew left (drop at deeper.now.tokens.now)) }
{
    let Read { item, left, at } = count_at(deeper, renew, left, at)?;
    signed_off(deeper.tokens, Modifier::Ctrl(item), left, at)
}

/// A `negctrl`, after the word.
#[tactic(auto, unfolding(crate::specs::steps::Statements::negctrl_at))]
fn negctrl_at<F: Fn(Ask) -> Result<Read<Tree>, Stop>>(
    deeper: &Below<'_, F>,
    renew: usize,
    left: usize,
    at: usize,
) -> Result<Read<Modifier>, Stop>
    requires callable { F.IsAlwaysCallable deeper.now.read }
    requires exact { IsExact (F.post deeper.now.read) deeper.now.depth deeper.now.tokens.now }
    ensures { Gives (seen deeper.now.tokens.now) result
        (negctrl_at (below deeper.now.depth) renew left (drop at deeper.now.tokens.now)) }
{
    let Read { item, left, at } = count_at(deeper, renew, left, at)?;
    signed_off(deeper.tokens, Modifier::NegCtrl(item), left, at)
}

/// Whether a word begins a modifier.
pub fn is_modifier(text: &str) -> bool
    ensures { result ≡ is_modifier text.now }
{
    text == "inv" || text == "pow" || text == "ctrl" || text == "negctrl"
}

/// The modifier of a word, after the word.
#[tactic(auto, unfolding(crate::specs::steps::Statements::modifier_of))]
fn modifier_of<F: Fn(Ask) -> Result<Read<Tree>, Stop>>(
    deeper: &Below<'_, F>,
    renew: usize,
    left: usize,
    text: &str,
    at: usize,
) -> Result<Read<Modifier>, Stop>
    requires callable { F.IsAlwaysCallable deeper.now.read }
    requires exact { IsExact (F.post deeper.now.read) deeper.now.depth deeper.now.tokens.now }
    ensures { Gives (seen deeper.now.tokens.now) result
        (modifier_of (below deeper.now.depth) renew left text.now (drop at deeper.now.tokens.now)) }
{
    if text == "inv" {
        signed_off(deeper.tokens, Modifier::Inv, left, at)
    } else if text == "pow" {
        pow_at(deeper, renew, left, at)
    } else if text == "ctrl" {
        ctrl_at(deeper, renew, left, at)
    } else {
        negctrl_at(deeper, renew, left, at)
    }
}

/// The word of a modifier, and the place after it.
fn modifier_word(tokens: &[Token], at: usize) -> Option<(&str, usize)>
    ensures { option_map (λ w. (w.0.now, drop w.1 tokens.now)) result
        ≡ modifier_word (drop at tokens.now) }
{
    let token = tokens.get(at)?;
    let _count = tokens.len();
    match token.kind {
        TokenKind::Word => {
            if is_modifier(token.text.as_str()) {
                Some((token.text.as_str(), at + 1))
            } else {
                None
            }
        }
        _ => None,
    }
}

/// The modifiers of a call, the outermost first.
fn modifiers_at<F: Fn(Ask) -> Result<Read<Tree>, Stop>>(
    deeper: &Below<'_, F>,
    renew: usize,
    mut left: usize,
    mut at: usize,
) -> Result<Read<List<Modifier>>, Stop>
    requires callable { F.IsAlwaysCallable deeper.now.read }
    requires exact { IsExact (F.post deeper.now.read) deeper.now.depth deeper.now.tokens.now }
    ensures { Gives (seen deeper.now.tokens.now) result
        (modifiers_at (length (drop at deeper.now.tokens.now)) (below deeper.now.depth) renew left
        (drop at deeper.now.tokens.now)) }
{
    let mut modifiers = List::new(deeper.alloc);
    for _turn in at..deeper.tokens.len() {
        match modifier_word(deeper.tokens, at) {
            None => {
                return Ok(Read {
                    item: modifiers,
                    left,
                    at,
                });
            }
            Some((text, after)) => {
                let read = modifier_of(deeper, renew, left, text, after)?;
                modifiers.push(read.item)?;
                left = read.left;
                at = read.at;
            }
        }
    }
    Ok(Read {
        item: modifiers,
        left,
        at,
    })
}

/// The parameters of a call in brackets, or nothing.
#[tactic(auto, unfolding(crate::specs::steps::Statements::params_at))]
fn params_at<F: Fn(Ask) -> Result<Read<Tree>, Stop>>(
    deeper: &Below<'_, F>,
    renew: usize,
    left: usize,
    at: usize,
) -> Result<Read<Option<List<Expr>>>, Stop>
    requires callable { F.IsAlwaysCallable deeper.now.read }
    requires exact { IsExact (F.post deeper.now.read) deeper.now.depth deeper.now.tokens.now }
    ensures { Gives (seen deeper.now.tokens.now) result
        (params_at (below deeper.now.depth) renew left (drop at deeper.now.tokens.now)) }
{
    if !begins_sign(deeper.tokens, at, "(") {
        return Ok(Read {
            item: None,
            left,
            at,
        });
    }
    let Read { item, left, at } = args_at(deeper, renew, left, at)?;
    Ok(Read {
        item: Some(item),
        left,
        at,
    })
}

/// A call of a gate, with its `;`.
#[tactic(auto, unfolding(crate::specs::steps::Statements::call_at, crate::specs::steps::Statements::stopped))]
pub fn call_at<F: Fn(Ask) -> Result<Read<Tree>, Stop>>(
    deeper: &Below<'_, F>,
    renew: usize,
    left: usize,
    at: usize,
) -> Result<Read<Call>, Stop>
    requires callable { F.IsAlwaysCallable deeper.now.read }
    requires exact { IsExact (F.post deeper.now.read) deeper.now.depth deeper.now.tokens.now }
    ensures { Gives (seen deeper.now.tokens.now) result
        (call_at (below deeper.now.depth) renew left (drop at deeper.now.tokens.now)) }
{
    let modifiers = modifiers_at(deeper, renew, left, at)?;
    let (name, at) = name_at(deeper.alloc, deeper.tokens, modifiers.at)?;
    let args = params_at(deeper, renew, modifiers.left, at)?;
    let Read { item, left, at } = acted_at(deeper, renew, args.left, args.at)?;
    let at = stopped(deeper.tokens, at)?;
    Ok(Read {
        item: Call {
            modifiers: modifiers.item,
            name,
            args: args.item,
            operands: item,
        },
        left,
        at,
    })
}
