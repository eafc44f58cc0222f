ghost use Rattle.std.specs.Prelude.{◌≡◌, ◌<◌, ◌+◌, drop, length};
ghost use Rattle.qs_parser.specs.steps.Asking.{IsExact, answered, seen};
ghost use Rattle.qs_parser.specs.steps.Globals.{extern_at, extern_frame_at, extern_waveform_at, frame_at, item_in, item_of, items_at, port_at, return_at, statement_item};
ghost use Rattle.qs_parser.specs.steps.Knot.{below};
ghost use Rattle.qs_parser.specs.steps.Tokens.{Gives};

use crate::below::{Ask, Below, Read, Tree};
use crate::knot::answer_at;
use crate::levels::whole_at;
use crate::lists::up_to_brace;
use crate::parts::{name_at, stopped};
use crate::statements::stmt_at;
use crate::stop::Stop;
use crate::tokens::{after_sign, after_word, past_word};
use qs_lexer::{Token, TokenKind};
use qs_tree::Item;
use qs_values::{List, Span};
use std::alloc::Global;

/// A port, after the word.
#[tactic(auto, unfolding(crate::specs::steps::Globals::port_at, crate::specs::steps::Statements::stopped))]
fn port_at(
    alloc: Global,
    tokens: &[Token],
    span: Span,
    is_extern: bool,
    left: usize,
    at: usize,
) -> Result<Read<Item>, Stop>
    ensures { Gives (seen tokens.now) result (port_at span is_extern left (drop at tokens.now)) }
{
    let (name, at) = name_at(alloc, tokens, at)?;
    let at = stopped(tokens, at)?;
    Ok(Read {
        item: Item::Port(span, is_extern, name),
        left,
        at,
    })
}

/// A frame from outside, after its word.
#[tactic(auto, unfolding(crate::specs::steps::Globals::extern_frame_at, crate::specs::steps::Statements::stopped))]
fn extern_frame_at(
    alloc: Global,
    tokens: &[Token],
    span: Span,
    left: usize,
    at: usize,
) -> Result<Read<Item>, Stop>
    ensures { Gives (seen tokens.now) result (extern_frame_at span left (drop at tokens.now)) }
{
    let (name, at) = name_at(alloc, tokens, at)?;
    let at = stopped(tokens, at)?;
    Ok(Read {
        item: Item::ExternFrame(span, name),
        left,
        at,
    })
}

/// A waveform from outside.
#[tactic(auto, unfolding(crate::specs::steps::Globals::extern_waveform_at, crate::specs::steps::Statements::stopped))]
fn extern_waveform_at(
    alloc: Global,
    tokens: &[Token],
    span: Span,
    left: usize,
    at: usize,
) -> Result<Read<Item>, Stop>
    ensures { Gives (seen tokens.now) result (extern_waveform_at span left (drop at tokens.now)) }
{
    let at = after_word(tokens, at, "waveform")?;
    let (name, at) = name_at(alloc, tokens, at)?;
    let at = stopped(tokens, at)?;
    Ok(Read {
        item: Item::ExternWaveform(span, name),
        left,
        at,
    })
}

/// What comes from outside, after `extern`.
#[tactic(auto, unfolding(crate::specs::steps::Globals::extern_at))]
fn extern_at(
    alloc: Global,
    tokens: &[Token],
    span: Span,
    left: usize,
    at: usize,
) -> Result<Read<Item>, Stop>
    ensures { Gives (seen tokens.now) result (extern_at span left (drop at tokens.now)) }
{
    if let Some(at) = past_word(tokens, at, "port") {
        return port_at(alloc, tokens, span, true, left, at);
    }
    match past_word(tokens, at, "frame") {
        Some(at) => extern_frame_at(alloc, tokens, span, left, at),
        None => extern_waveform_at(alloc, tokens, span, left, at),
    }
}

/// A new frame, after the word.
#[tactic(auto, unfolding(crate::specs::steps::Globals::frame_at, crate::specs::steps::Statements::stopped))]
fn frame_at<F: Fn(Ask) -> Result<Read<Tree>, Stop>>(
    deeper: &Below<'_, F>,
    span: Span,
    renew: usize,
    left: usize,
    at: usize,
) -> Result<Read<Item>, Stop>
    requires callable { F.IsAlwaysCallable deeper.now.read }
    requires exact { IsExact (F.post deeper.now.read) deeper.now.depth deeper.now.tokens.now }
    ensures { Gives (seen deeper.now.tokens.now) result
        (frame_at span (below deeper.now.depth) renew left (drop at deeper.now.tokens.now)) }
{
    let (name, at) = name_at(deeper.alloc, deeper.tokens, at)?;
    let at = after_sign(deeper.tokens, at, "=")?;
    let Read { item, left, at } = whole_at(deeper, renew, left, at)?;
    let at = stopped(deeper.tokens, at)?;
    Ok(Read {
        item: Item::Frame(span, name, item),
        left,
        at,
    })
}

/// What is given back, after the word.
#[tactic(auto, unfolding(crate::specs::steps::Globals::return_at, crate::specs::steps::Statements::stopped))]
fn return_at<F: Fn(Ask) -> Result<Read<Tree>, Stop>>(
    deeper: &Below<'_, F>,
    span: Span,
    renew: usize,
    left: usize,
    at: usize,
) -> Result<Read<Item>, Stop>
    requires callable { F.IsAlwaysCallable deeper.now.read }
    requires exact { IsExact (F.post deeper.now.read) deeper.now.depth deeper.now.tokens.now }
    ensures { Gives (seen deeper.now.tokens.now) result
        (return_at span (below deeper.now.depth) renew left (drop at deeper.now.tokens.now)) }
{
    let Read { item, left, at } = whole_at(deeper, renew, left, at)?;
    let at = stopped(deeper.tokens, at)?;
    Ok(Read {
        item: Item::Return(span, item),
        left,
        at,
    })
}

/// A statement as an item.
#[tactic(auto, unfolding(crate::specs::steps::Globals::statement_item))]
fn statement_item<F: Fn(Ask) -> Result<Read<Tree>, Stop>>(
    deeper: &Below<'_, F>,
    renew: usize,
    left: usize,
    at: usize,
) -> Result<Read<Item>, Stop>
    requires callable { F.IsAlwaysCallable deeper.now.read }
    requires exact { IsExact (F.post deeper.now.read) deeper.now.depth deeper.now.tokens.now }
    ensures { Gives (seen deeper.now.tokens.now) result
        (statement_item (below deeper.now.depth) renew left (drop at deeper.now.tokens.now)) }
{
    let Read { item, left, at } = stmt_at(deeper, renew, left, at)?;
    Ok(Read {
        item: Item::Statement(item),
        left,
        at,
    })
}

/// An item that begins with this word, by the place after the word and the place of the word.
#[tactic(auto, unfolding(crate::specs::steps::Globals::item_of))]
fn item_of<F: Fn(Ask) -> Result<Read<Tree>, Stop>>(
    deeper: &Below<'_, F>,
    span: Span,
    text: &str,
    renew: usize,
    left: usize,
    rest: usize,
    all: usize,
) -> Result<Read<Item>, Stop>
    requires callable { F.IsAlwaysCallable deeper.now.read }
    requires exact { IsExact (F.post deeper.now.read) deeper.now.depth deeper.now.tokens.now }
    ensures { Gives (seen deeper.now.tokens.now) result
        (item_of (below deeper.now.depth) renew left span text.now (drop rest deeper.now.tokens.now)
        (drop all deeper.now.tokens.now)) }
{
    match text {
        "extern" => extern_at(deeper.alloc, deeper.tokens, span, left, rest),
        "port" => port_at(deeper.alloc, deeper.tokens, span, false, left, rest),
        "frame" => frame_at(deeper, span, renew, left, rest),
        "return" => return_at(deeper, span, renew, left, rest),
        _ => statement_item(deeper, renew, left, all),
    }
}

/// An item that begins with this word at a place, where so many constructs may be open in it.
fn item_below(
    alloc: Global,
    tokens: &[Token],
    depth: usize,
    token: &Token,
    renew: usize,
    left: usize,
    at: usize,
) -> Result<Read<Item>, Stop>
    requires room { at < length tokens.now }
    ensures { Gives (seen tokens.now) result
        (item_of (below depth) renew left token.now.span token.now.text (drop (at + 1) tokens.now)
        (drop at tokens.now)) }
{
    let _count = tokens.len();
    let deeper = Below {
        alloc,
        tokens,
        depth,
        read: |ask: Ask| -> Result<Read<Tree>, Stop>
            ensures { Gives (seen tokens.entry.now) result
                (answered (below depth) ask tokens.entry.now) }
        { answer_at(alloc, tokens, depth, ask) },
    };
    item_of(
        &deeper,
        token.span,
        token.text.as_str(),
        renew,
        left,
        at + 1,
        at,
    )
}

/// An item, by the depth of what it stands in.
#[tactic(auto, unfolding(crate::specs::steps::Globals::item_in))]
fn item_in(
    alloc: Global,
    tokens: &[Token],
    depth: usize,
    renew: usize,
    left: usize,
    at: usize,
) -> Result<Read<Item>, Stop>
    ensures { Gives (seen tokens.now) result (item_in depth renew left (drop at tokens.now)) }
{
    match tokens.get(at) {
        Some(token) => {
            let _count = tokens.len();
            match token.kind {
                TokenKind::Word => {
                    if depth == 0 {
                        return Err(Stop::Unread);
                    }
                    item_below(alloc, tokens, depth - 1, token, renew, left, at)
                }
                _ => Err(Stop::Unread),
            }
        }
        None => Err(Stop::Unread),
    }
}

/// Items in braces.
#[tactic(auto, unfolding(crate::specs::steps::Globals::items_at))]
pub fn items_at(
    alloc: Global,
    tokens: &[Token],
    depth: usize,
    renew: usize,
    left: usize,
    at: usize,
) -> Result<Read<List<Item>>, Stop>
    ensures { Gives (seen tokens.now) result (items_at depth renew left (drop at tokens.now)) }
{
    let at = after_sign(tokens, at, "{")?;
    if depth == 0 {
        return Err(Stop::Unread);
    }
    up_to_brace(
        alloc,
        tokens,
        |left: usize, at: usize| item_in(alloc, tokens, depth - 1, renew, left, at),
        left,
        at,
    )
}
