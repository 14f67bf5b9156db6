// Lines of the contents, one by one.
ghost use Rattle.std.specs.Prelude.{◌≡◌, MatchOption};
ghost use Rattle.notation.specs.Contents.{EntryIs};

use notation::contents::Entry;
use reading::decimals::read_length;
use reading::words::{after_rule, after_start, after_steps, is_body};

// What a line of the contents says, if it has the form of one.
pub fn read_entry(line: &[u8]) -> Option<Entry>
    ensures { EntryIs line.now result }
{
    if let Some(rest) = after_start(line) {
        read_length(rest).map(Entry::Start)
    } else if let Some(rest) = after_rule(line) {
        read_length(rest).map(Entry::Rule)
    } else if let Some(rest) = after_steps(line) {
        read_length(rest).map(Entry::Steps)
    } else {
        is_body(line).then_some(Entry::Body)
    }
}
