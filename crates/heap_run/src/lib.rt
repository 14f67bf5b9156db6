// A grammar file carried out on the heap, for programs: the library takes its tables and its buffers from the caller.
#![tactic(auto)]

ghost use Rattle.std.specs.Prelude.{◌≡◌, ◌≤◌, ◌++◌, length, drop, Ok, Err, MatchResult, IfOk, OnErr, vec_len};
ghost use Rattle.output.specs.declared.line.TheConstants.{LONGEST_LINE};
ghost use Rattle.output.specs.Lines.{refusal_line as RefusalLine};
ghost use Rattle.run.specs.Openings.{OpensGrammar, not_a_grammar as NotAGrammar};
ghost use Rattle.run.specs.declared.bodies.Stop.TheVariants.{Refused as Refuses};

use commands::{Cut, Mark};
use elements::ink::Ink;
use elements::point::Point;
use notation::refused::Refused;
use output::refusals::{LONGEST_LINE, refusal_line};
use run::bodies::Stop;
use run::run::run;
use run::tables::Tables;
use segments::segment::Segment;
use std::alloc::{AllocError, Global};

// How many slots each table has.
const SLOTS: usize = 1024;

// The most bytes that the text of a drawing may have.
pub const LONGEST_TEXT: usize = 65536;

// Something to fill the tables of marks with.
fn any_mark() -> Mark {
    Ink::new(0, Point::new(0, 0).unwrap()).unwrap()
}

// And those of cuts.
fn any_cut() -> Cut {
    Ink::new(0, Segment::new(0, 0, 1, 0).unwrap()).unwrap()
}

// A buffer with so many bytes.
fn buffer(heap: Global, len: usize) -> Result<Vec<u8>, AllocError>
    ensures { IfOk result (λ bytes. vec_len bytes ≡ len) }
{
    Ok(vec![in heap; 0u8; len]?)
}

// Carries out the file in new tables, and writes the drawing that it leaves into the front of the buffer.
pub fn carry_into(
    heap: Global,
    file: &[u8],
    out: &mut [u8],
) -> Result<Result<usize, Stop>, AllocError>
    ensures not_a_grammar { IfOk result (λ answer. (OpensGrammar file.now → ⊥) → answer ≡ Err (Refuses NotAGrammar)) }
    ensures written { IfOk result (λ answer. MatchResult answer (λ n. n ≤ length out.old) (λ _. out.new ≡ out.old)) }
    ensures kept { OnErr result (out.new ≡ out.old) }
{
    let (mark, cut) = (any_mark(), any_cut());
    let mut left_marks = vec![in heap; mark; SLOTS]?;
    let mut left_cuts = vec![in heap; cut; SLOTS]?;
    let mut right_marks = vec![in heap; mark; SLOTS]?;
    let mut right_cuts = vec![in heap; cut; SLOTS]?;
    let mut marks = vec![in heap; mark; SLOTS]?;
    let mut cuts = vec![in heap; cut; SLOTS]?;
    let tables = Tables {
        left_marks: left_marks.as_mut_slice(),
        left_cuts: left_cuts.as_mut_slice(),
        right_marks: right_marks.as_mut_slice(),
        right_cuts: right_cuts.as_mut_slice(),
        marks: marks.as_mut_slice(),
        cuts: cuts.as_mut_slice(),
    };
    Ok(run(file, tables, out))
}

// The same, with the line of a refusal in the front of the buffer, if it has room for that, where the file is refused: so a
// program that has its buffer needs no other memory to tell of a refusal, and one that carries out many files keeps one buffer
// for all. The answer is how many bytes are to be printed, or the line of a pick that it comes to.
pub fn print_into(
    heap: Global,
    file: &[u8],
    out: &mut [u8],
) -> Result<Result<usize, u32>, AllocError>
    ensures printed { IfOk result (λ answer. MatchResult answer (λ n. n ≤ length out.old) (λ _. out.new ≡ out.old)) }
    ensures not_a_grammar { IfOk result (λ answer. (OpensGrammar file.now → ⊥) → LONGEST_LINE ≤ length out.old → (answer ≡ Ok (length (RefusalLine NotAGrammar))) × (out.new ≡ RefusalLine NotAGrammar ++ drop (length (RefusalLine NotAGrammar)) out.old)) }
    ensures kept { OnErr result (out.new ≡ out.old) }
{
    match carry_into(heap, file, out)? {
        Ok(n) => Ok(Ok(n)),
        Err(Stop::Refused(refused)) => Ok(Ok(refusal_line(refused, out).unwrap_or(0))),
        Err(Stop::PickAhead(line)) => Ok(Err(line)),
    }
}

// Carries out the file, and answers the text of the drawing that it leaves.
pub fn carry_out(heap: Global, file: &[u8]) -> Result<Result<Vec<u8>, Stop>, AllocError>
    ensures not_a_grammar { IfOk result (λ answer. (OpensGrammar file.now → ⊥) → answer ≡ Err (Refuses NotAGrammar)) }
    ensures text { IfOk result (λ answer. IfOk answer (λ text. vec_len text ≤ LONGEST_TEXT)) }
{
    let mut text = buffer(heap, LONGEST_TEXT)?;
    let answer = carry_into(heap, file, text.as_mut_slice())?;
    Ok(answer.map(|n| {
        text.truncate(n);
        text
    }))
}

// The line that tells of a refusal.
pub fn refusal_text(heap: Global, refused: Refused) -> Result<Vec<u8>, AllocError>
    ensures { IfOk result (λ text. text.items ≡ RefusalLine refused) }
{
    let mut text = buffer(heap, LONGEST_LINE)?;
    let n = refusal_line(refused, text.as_mut_slice()).unwrap();
    text.truncate(n);
    Ok(text)
}

#[cfg(test)]
mod tests {
    use super::*;
    use lattice::refusal::Refusal;
    use std::test::Fail;

    #[test]
    fn a_start_comes_out_as_it_went_in(rt: HostRuntime) -> Result<(), Fail> {
        let file = b"lattice 1\nstart 11\nrule 0\nsteps 0\nbody\nmark 1 0 0\n";
        let text = carry_out(rt.alloc(), file)?.ok().expect(&rt, "a drawing");
        assert_eq!(rt; text.as_slice(), b"mark 1 0 0\n".as_slice());
        Ok(())
    }

    #[test]
    fn a_refused_file_leaves_the_buffer(rt: HostRuntime) -> Result<(), Fail> {
        let mut out = [7u8; 12];
        let file = b"lattice 1\nstart 11\nrule 0\nsteps 0\nbody\nmark 1 0 0\n";
        assert_eq!(rt; carry_into(rt.alloc(), file, &mut out)?.ok(), Some(11));
        assert!(rt; carry_into(rt.alloc(), b"lattice 2\n", &mut out)?.is_err());
        assert_eq!(rt; out.as_slice(), b"mark 1 0 0\n\x07".as_slice());
        Ok(())
    }

    #[test]
    fn a_refused_file_prints_its_line(rt: HostRuntime) -> Result<(), Fail> {
        let mut out = [7u8; 18];
        assert_eq!(rt;
            print_into(rt.alloc(), b"lattice 2\n", &mut out)?.ok(),
            Some(17)
        );
        assert_eq!(rt; out.as_slice(), b"refused 1 line 1\n\x07".as_slice());
        Ok(())
    }

    #[test]
    fn a_pick_ahead_has_its_line(rt: HostRuntime) -> Result<(), Fail> {
        let mut out = [7u8; 64];
        let file = b"lattice 1\nstart 0\nrule 16\nsteps 9\nbody\nleft mark 1 0 0\npick 1 1\n";
        assert_eq!(rt; print_into(rt.alloc(), file, &mut out)?, Err(7));
        assert_eq!(rt; out[0], 7);
        Ok(())
    }

    #[test]
    fn a_refusal_has_its_line(rt: HostRuntime) -> Result<(), Fail> {
        let text = refusal_text(
            rt.alloc(),
            Refused {
                refusal: Refusal::BadLine,
                line: 7,
            },
        )?;
        assert_eq!(rt; text.as_slice(), b"refused 4 line 7\n".as_slice());
        Ok(())
    }
}
