// How the time of a question and of a draw grows with the number of cuts on a sheet. What is printed is the same on every
// machine: counts, and whether the times grow as they should. The times themselves are not printed.
#![tactic(auto)]

use anyhow::anyhow;
use lattice::refusal::Refusal;
use segments::segment::Segment;
use sheets::sheet::Sheet;
use std::rt::Clock;
use std::time::Instant;

// A refusal ends the program.
fn must<T>(answer: Result<T, Refusal>) -> anyhow::Result<T> {
    answer.map_err(|_| anyhow!("a call is refused"))
}

// The cut of a number: one edge of a row, with a gap to the next. A row has 1000 of them.
fn cut(number: u32) -> Result<Segment, Refusal> {
    let x = ((number % 1000) * 4) as i32 - 2000;
    let y = (number / 1000).min(1000) as i32;
    Segment::new(x, y, x + 1, y)
}

// Draws the cuts below a number, each before those that are there.
fn fill(sheet: &mut Sheet<Segment>, cuts: u32) -> Result<(), Refusal> {
    for number in (0..cuts).rev() {
        sheet.add(cut(number)?)?;
    }
    Ok(())
}

// Asks of 512 cuts whether they are covered: how many are.
fn ask(sheet: &Sheet<Segment>, cuts: u32) -> usize {
    (0_u32..512)
        .filter(|k| {
            cut(k.wrapping_mul(997) % cuts.max(1)).is_ok_and(|e| sheet.covers_element(&e))
        })
        .count()
}

// Rubs and draws the first cut 512 times, so that every other cut moves twice each time.
fn redraw(sheet: &mut Sheet<Segment>) -> Result<(), Refusal> {
    let first = cut(0)?;
    for _ in 0..512 {
        sheet.remove(first)?;
        sheet.add(first)?;
    }
    Ok(())
}

// The least time of sixteen rounds.
fn least_time<F: FnMut() -> anyhow::Result<()>>(
    clock: &impl Clock,
    mut round: F,
) -> anyhow::Result<u128>
    requires { F.IsAlwaysCallable round }
{
    let mut least = u128::MAX;
    for _ in 0..16 {
        let start = Instant::now(clock)?;
        round()?;
        least = least.min(start.elapsed(clock)?.as_nanos());
    }
    Ok(least)
}

// The times of questions and of draws on a sheet with so many cuts.
fn measure(rt: &HostRuntime, cuts: u32) -> anyhow::Result<(u128, u128)> {
    let mut slots = vec![in rt.alloc(); must(cut(0))?; cuts as usize]?;
    let mut sheet = must(Sheet::new(slots.as_mut_slice()))?;
    must(fill(&mut sheet, cuts))?;
    let questions = least_time(rt, || match ask(&sheet, cuts) {
        512 => Ok(()),
        _ => Err(anyhow!("a cut is not found")),
    })?;
    let draws = least_time(rt, || must(redraw(&mut sheet)))?;
    let count = sheet.count();
    let atoms = sheet.atoms();
    println!(rt; "{cuts} cuts drawn: {count} elements, {atoms} atoms")?;
    Ok((questions, draws))
}

fn run(rt: &HostRuntime) -> anyhow::Result<()> {
    let (few, quick) = measure(rt, 64)?;
    let (more, slower) = measure(rt, 512)?;
    let (most, slowest) = measure(rt, 4096)?;
    let asked = more <= few.saturating_mul(4) && most <= few.saturating_mul(8);
    let drawn = slower <= quick.saturating_mul(16) && slowest <= quick.saturating_mul(128);
    println!(rt;
        "a question among 512 takes at most 4 times as long as among 64, among 4096 at most 8 times: {asked}"
    )?;
    println!(rt;
        "a draw among 512 takes at most 16 times as long as among 64, among 4096 at most 128 times: {drawn}"
    )?;
    Ok(())
}

fn main(rt: HostRuntime) -> anyhow::Result<()> {
    run(&rt)
}
