// What the test programs write beside answers: facts as two hexadecimal digits, and lines of counts that end with a sum. Each function gives back what it
// wrote, or the error of the write that failed.
ghost use Rattle.std.specs.Prelude.{◌≡◌, IfOk};

use std::io;

// Writes 01 where the fact holds and else 00, among the answers of a line.
pub fn fact(rt: &impl Print, holds: bool) -> io::Result<bool>
    ensures { IfOk result (λ written. written ≡ holds) }
{
    print!(rt; " {:02x}", u8::from(holds))?;
    Ok(holds)
}

// Writes such a fact as the last of a line.
pub fn last_fact(rt: &impl Print, holds: bool) -> io::Result<bool>
    ensures { IfOk result (λ written. written ≡ holds) }
{
    println!(rt; " {:02x}", u8::from(holds))?;
    Ok(holds)
}

// Writes a further count of a line.
pub fn count(rt: &impl Print, n: u64) -> io::Result<u64>
    ensures { IfOk result (λ written. written ≡ n) }
{
    print!(rt; " {n}")?;
    Ok(n)
}

// Writes the sum that ends a line.
pub fn last_sum(rt: &impl Print, sum: u64) -> io::Result<u64>
    ensures { IfOk result (λ written. written ≡ sum) }
{
    println!(rt; " {sum:08x}")?;
    Ok(sum)
}

// Writes a line: what it is about, its counts and its sum.
pub fn line(rt: &impl Print, about: u64, counts: &[u64], sum: u64) -> io::Result<u64>
    ensures { IfOk result (λ written. written ≡ sum) }
{
    print!(rt; "{about}")?;
    for &n in counts {
        count(rt, n)?;
    }
    last_sum(rt, sum)
}
