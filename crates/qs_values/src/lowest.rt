ghost use Rattle.std.specs.Prelude.{◌<◌, ◌≢◌, ◌^◌, pos, ◌<ℤ◌, ◌*ℤ◌, unsigned_abs};
ghost use Rattle.std.specs.Int.{IsGcd};
ghost use Rattle.qs_values.specs.Lowest.{IsLowest};

/// 2^64, which a number of one machine word is below.
const WORD: u128 = 18_446_744_073_709_551_616;

/// The greatest common divisor, by Euclid's algorithm on one machine word.
fn word_gcd(a: u64, b: u64) -> u64
    ensures { IsGcd a b result }
{
    let mut whole = a;
    let mut part = b;
    'steps: while part != 0 {
        let rest = whole % part;
        whole = part;
        part = rest;
    }
    whole
}

/// The greatest common divisor, by Euclid's algorithm.
fn gcd(a: u128, b: u128) -> u128
    ensures { IsGcd a b result }
{
    let mut whole = a;
    let mut part = b;
    'steps: while part != 0 {
        if whole < WORD && part < WORD {
            return word_gcd(whole as u64, part as u64) as u128;
        }
        let rest = whole % part;
        whole = part;
        part = rest;
    }
    whole
}

/// The greatest common divisor, with the sign of `den`.
fn signed_gcd(num: i128, den: i128) -> i128
    requires den { unsigned_abs den < 10 ^ 37 }
    requires nonzero { den ≢ pos 0 }
    ensures size { IsGcd (unsigned_abs num) (unsigned_abs den) (unsigned_abs result) }
    ensures sign { pos 0 <ℤ (result *ℤ den) }
{
    let size = gcd(num.unsigned_abs(), den.unsigned_abs()) as i128;
    size * den.signum()
}

/// The parts of `num / den` in lowest terms, the second of them above 0.
pub fn lowest(num: i128, den: i128) -> (i128, i128)
    requires num { unsigned_abs num < 10 ^ 37 }
    requires den { unsigned_abs den < 10 ^ 37 }
    requires nonzero { den ≢ pos 0 }
    ensures { IsLowest num den result.0 result.1 }
{
    let divisor = signed_gcd(num, den);
    (num / divisor, den / divisor)
}
