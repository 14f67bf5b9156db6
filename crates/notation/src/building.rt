// Contents put together entry by entry.
ghost use Rattle.std.specs.Prelude.{◌≡◌, [], length, Decides};
ghost use Rattle.notation.specs.Contents.{entries, rule_lengths, Proper, Admits};

use crate::contents::{Contents, Entry, MOST_RULES, Stage};

impl Contents {
    // No entry yet.
    pub fn new() -> Contents
        ensures none { entries result ≡ [] }
        ensures proper { Proper result }
    {
        Contents {
            stage: Stage::Start,
            start: 0,
            rules: [0; MOST_RULES],
            count: 0,
            steps: 0,
        }
    }

    // Whether all entries were taken.
    pub fn is_whole(&self) -> bool
        ensures { Decides result (self.now.stage ≡ Stage.Whole) }
    {
        self.stage == Stage::Whole
    }

    // The lengths of the rules that were taken, in order.
    pub fn rules(&self) -> &[u32]
        ensures value { result.now ≡ rule_lengths self.now }
        ensures len { length result.now ≡ self.now.count }
    {
        &self.rules[..self.count]
    }

    // Takes the entry, if it may come next: the start, then one to 32 rules, then the steps, then the line that ends the
    // contents.
    pub fn admit(&mut self, entry: Entry) -> bool
        ensures { Admits self.old self.new entry result }
    {
        match (self.stage, entry) {
            (Stage::Start, Entry::Start(length)) => {
                self.start = length;
                self.stage = Stage::Rules;
                true
            }
            (Stage::Rules, Entry::Rule(length)) if self.count < self.rules.len() => {
                self.rules[self.count] = length;
                self.count += 1;
                true
            }
            (Stage::Rules, Entry::Steps(length)) if self.count > 0 => {
                self.steps = length;
                self.stage = Stage::Body;
                true
            }
            (Stage::Body, Entry::Body) => {
                self.stage = Stage::Whole;
                true
            }
            _ => false,
        }
    }
}
