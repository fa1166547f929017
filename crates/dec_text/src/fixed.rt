ghost use Rattle.std.specs.Prelude.{◌≡◌, ◌^◌, ◌<◌, ◌+◌, ◌%◌, ◌≤◌, if◌then◌else◌, ℕ, ℤ, ◌++◌, ◌∷◌, [], OnErr, OnOk};
ghost use Rattle.std.specs.Fmt.{decimal};
ghost use Rattle.std.specs.Int.RustNames.{unsigned_abs};
ghost use Rattle.dec_text.specs.ReadBack.{ReadsBack};
ghost use Rattle.dec_text.specs.Fixed.{Extends, fixed_text, last_digits};

use kmc_base::OutOfMemory;

/// Appends the number `value * 10^-decimals`: a minus where it is negative, the whole part, a point, and
/// so many decimals. The value 1500 with 3 decimals is `1.500`.
///
/// # Errors
///
/// Where memory is refused, `out` is as it was.
pub fn print_fixed(value: i128, decimals: u32, out: &mut Vec<u8>) -> Result<(), OutOfMemory>
    requires some { 1 ≤ decimals }
    requires most { decimals ≤ 18 }
    ensures ok { OnOk result (out.new.items ≡ out.old.items ++ fixed_text value decimals) }
    ensures err { OnErr result (out.new.items ≡ out.old.items) }
{
    let length = out.len();
    let printed = push_fixed(value, decimals, out);
    if printed.is_err() {
        out.truncate(length);
    }
    printed
}

/// Appends the number, or a part of it where memory is refused.
fn push_fixed(value: i128, decimals: u32, out: &mut Vec<u8>) -> Result<(), OutOfMemory>
    requires { decimals ≤ 18 }
    ensures ok { OnOk result (out.new.items ≡ out.old.items ++ fixed_text value decimals) }
    ensures err { OnErr result (Extends out.old.items out.new.items) }
{
    push_sign(value < 0, out)?;
    let size = value.unsigned_abs();
    push_whole(size / 10u128.pow(decimals), out)?;
    out.push(b'.')?;
    push_last(decimals, size, out)?;
    Ok(())
}

/// Appends a minus for a negative number.
fn push_sign(negative: bool, out: &mut Vec<u8>) -> Result<(), OutOfMemory>
    ensures ok { OnOk result (out.new.items ≡ out.old.items ++ (if negative then 45 ∷ [] else [])) }
    ensures err { OnErr result (out.new.items ≡ out.old.items) }
{
    if negative {
        out.push(b'-')?;
    }
    Ok(())
}

/// Appends the digits of a number, without zeros in front.
fn push_whole(number: u128, out: &mut Vec<u8>) -> Result<(), OutOfMemory>
    ensures ok { OnOk result (out.new.items ≡ out.old.items ++ decimal number) }
    ensures err { OnErr result (Extends out.old.items out.new.items) }
{
    if number >= 10 {
        push_whole(number / 10, out)?;
    }
    push_digit(number, out)?;
    Ok(())
}

/// Appends so many digits of a number, its last ones.
fn push_last(count: u32, number: u128, out: &mut Vec<u8>) -> Result<(), OutOfMemory>
    ensures ok { OnOk result (out.new.items ≡ out.old.items ++ last_digits count number) }
    ensures err { OnErr result (Extends out.old.items out.new.items) }
{
    if count == 0 {
        return Ok(());
    }
    push_last(count - 1, number / 10, out)?;
    push_digit(number, out)?;
    Ok(())
}

/// Appends the last digit of a number.
fn push_digit(number: u128, out: &mut Vec<u8>) -> Result<(), OutOfMemory>
    ensures ok { OnOk result (out.new.items ≡ out.old.items ++ (48 + number % 10) ∷ []) }
    ensures err { OnErr result (out.new.items ≡ out.old.items) }
{
    out.push(b'0' + (number % 10) as u8)?;
    Ok(())
}

/// The law that what is printed of a number of up to 18 digits is read back as that number.
pub fn printed_reads_back()
    ensures { (v : ℤ) (decimals : ℕ) → decimals ≤ 18 → unsigned_abs v < 10 ^ 18 → ReadsBack v decimals }
{}
