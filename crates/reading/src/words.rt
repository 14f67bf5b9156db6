// The words that open a line, each told by a pattern over its bytes that names what follows: that is the form in which lines
// are told here. A word has a function of its own: a pattern names its bytes one by one, and is the same for no two words.
#![tactic(auto, using(crate::proofs::Opening::opens))]

ghost use Rattle.std.specs.Prelude.{◌≡◌, codes, Decides};
ghost use Rattle.reading.specs.Fields.{After};

// What follows `mark `.
pub fn after_mark<'a>(line: &'a [u8]) -> Option<&'a [u8]>
    ensures { After (codes "mark ") line.now result }
{
    match line {
        [b'm', b'a', b'r', b'k', b' ', rest @ ..] => Some(rest),
        _ => None,
    }
}

// What follows `cut `.
pub fn after_cut<'a>(line: &'a [u8]) -> Option<&'a [u8]>
    ensures { After (codes "cut ") line.now result }
{
    match line {
        [b'c', b'u', b't', b' ', rest @ ..] => Some(rest),
        _ => None,
    }
}

// What follows `left `.
pub fn after_left<'a>(line: &'a [u8]) -> Option<&'a [u8]>
    ensures { After (codes "left ") line.now result }
{
    match line {
        [b'l', b'e', b'f', b't', b' ', rest @ ..] => Some(rest),
        _ => None,
    }
}

// What follows `right `.
pub fn after_right<'a>(line: &'a [u8]) -> Option<&'a [u8]>
    ensures { After (codes "right ") line.now result }
{
    match line {
        [b'r', b'i', b'g', b'h', b't', b' ', rest @ ..] => Some(rest),
        _ => None,
    }
}

// What follows `pick `.
pub fn after_pick<'a>(line: &'a [u8]) -> Option<&'a [u8]>
    ensures { After (codes "pick ") line.now result }
{
    match line {
        [b'p', b'i', b'c', b'k', b' ', rest @ ..] => Some(rest),
        _ => None,
    }
}

// What follows `start `.
pub fn after_start<'a>(line: &'a [u8]) -> Option<&'a [u8]>
    ensures { After (codes "start ") line.now result }
{
    match line {
        [b's', b't', b'a', b'r', b't', b' ', rest @ ..] => Some(rest),
        _ => None,
    }
}

// What follows `rule `.
pub fn after_rule<'a>(line: &'a [u8]) -> Option<&'a [u8]>
    ensures { After (codes "rule ") line.now result }
{
    match line {
        [b'r', b'u', b'l', b'e', b' ', rest @ ..] => Some(rest),
        _ => None,
    }
}

// What follows `steps `.
pub fn after_steps<'a>(line: &'a [u8]) -> Option<&'a [u8]>
    ensures { After (codes "steps ") line.now result }
{
    match line {
        [b's', b't', b'e', b'p', b's', b' ', rest @ ..] => Some(rest),
        _ => None,
    }
}

// Whether a line is `undo` and nothing else.
pub fn is_undo(line: &[u8]) -> bool
    ensures { Decides result (line.now ≡ codes "undo") }
{
    matches!(line, b"undo")
}

// Whether a line is `body` and nothing else.
pub fn is_body(line: &[u8]) -> bool
    ensures { Decides result (line.now ≡ codes "body") }
{
    matches!(line, b"body")
}
