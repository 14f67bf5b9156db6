// A whole file.
ghost use Rattle.std.specs.Prelude.{◌≡◌, ◌≤◌, length, Err, MatchResult};
ghost use Rattle.run.specs.Openings.{OpensGrammar, not_a_grammar as NotAGrammar};
ghost use Rattle.run.specs.declared.bodies.Stop.TheVariants.{Refused as Refuses};

use crate::bodies::{Stop, carry_rules, carry_start, carry_steps, refused_at};
use crate::listing::read_listing;
use crate::tables::{BothSheets, Tables};
use output::show::show;

// Carries out the file in the tables, and writes the drawing that it leaves into the front of the buffer.
pub fn run(file: &[u8], tables: Tables, out: &mut [u8]) -> Result<usize, Stop>
    ensures not_a_grammar { (OpensGrammar file.now → ⊥) → result ≡ Err (Refuses NotAGrammar) }
    ensures written { MatchResult result (λ n. n ≤ length out.old) (λ _. out.new ≡ out.old) }
{
    let outside = |refusal| refused_at(refusal, 0);
    let listing = read_listing(file)?;
    let (mut book, drawn) = tables.open().map_err(outside)?;
    let BothSheets {
        mut marks,
        mut cuts,
    } = drawn;
    carry_rules(&listing, &mut book)?;
    carry_start(&listing, &mut marks, &mut cuts)?;
    carry_steps(&listing, &book)?;
    show(marks.elements(), cuts.elements(), out).map_err(outside)
}
