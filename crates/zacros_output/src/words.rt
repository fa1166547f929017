ghost use Rattle.std.specs.Prelude.{◌≡◌, ◌≤◌, ◌<◌, ◌^◌, ◌++◌, ◌∷◌, [], OnErr, OnOk};
ghost use Rattle.std.specs.Fmt.{decimal, signed_decimal};
ghost use Rattle.dec_text.specs.Fixed.{fixed_text};
ghost use Rattle.species_book.specs.Book.{names_of};
ghost use Rattle.zacros_output.specs.Words.{energy_text, next_counts, next_names, next_numbers, next_word, sample_start, temperature_text, time_text};

use dec_text::print_fixed;
use itoa::Buffer;
use kmc_base::OutOfMemory;

/// Adds a text.
pub(crate) fn push_text(out: &mut Vec<u8>, text: &[u8]) -> Result<(), OutOfMemory>
    ensures ok { OnOk result (out.new.items ≡ out.old.items ++ text.now) }
    ensures err { OnErr result (out.new.items ≡ out.old.items) }
{
    out.extend_from_slice(text)?;
    Ok(())
}

/// Adds a number in digits.
pub(crate) fn push_number(out: &mut Vec<u8>, number: u64) -> Result<(), OutOfMemory>
    ensures { OnOk result (out.new.items ≡ out.old.items ++ decimal number) }
{
    push_text(out, Buffer::new().format(number).as_bytes())
}

/// Adds a space, and a word.
pub(crate) fn push_next_word(out: &mut Vec<u8>, word: &[u8]) -> Result<(), OutOfMemory>
    ensures { OnOk result (out.new.items ≡ out.old.items ++ next_word word.now) }
{
    push_text(out, b" ")?;
    push_text(out, word)
}

/// Adds a space, and a number in digits.
pub(crate) fn push_next_number(out: &mut Vec<u8>, number: u64) -> Result<(), OutOfMemory>
    ensures { OnOk result (out.new.items ≡ out.old.items ++ next_word (decimal number)) }
{
    push_text(out, b" ")?;
    push_number(out, number)
}

/// Adds a space, and a number of either sign in digits.
pub(crate) fn push_next_signed(out: &mut Vec<u8>, number: i64) -> Result<(), OutOfMemory>
    ensures { OnOk result (out.new.items ≡ out.old.items ++ next_word (signed_decimal number)) }
{
    push_text(out, b" ")?;
    push_text(out, Buffer::new().format(number).as_bytes())
}

/// Adds names, with a space before each.
pub(crate) fn push_next_names(out: &mut Vec<u8>, names: &[Vec<u8>]) -> Result<(), OutOfMemory>
    ensures { OnOk result (out.new.items ≡ out.old.items ++ next_names (names_of names.now)) }
{
    for name in names {
        push_next_word(out, name)?;
    }
    Ok(())
}

/// Adds counts, with a space before each.
pub(crate) fn push_next_counts(out: &mut Vec<u8>, counts: &[u64]) -> Result<(), OutOfMemory>
    ensures { OnOk result (out.new.items ≡ out.old.items ++ next_counts counts.now) }
{
    for count in counts {
        push_next_number(out, *count)?;
    }
    Ok(())
}

/// Adds numbers of either sign, with a space before each.
pub(crate) fn push_next_numbers(out: &mut Vec<u8>, numbers: &[i64]) -> Result<(), OutOfMemory>
    ensures { OnOk result (out.new.items ≡ out.old.items ++ next_numbers numbers.now) }
{
    for number in numbers {
        push_next_signed(out, *number)?;
    }
    Ok(())
}

/// Adds a time in seconds, which is given in attoseconds.
pub(crate) fn push_time(out: &mut Vec<u8>, time: u128) -> Result<(), OutOfMemory>
    requires { time < 2 ^ 127 }
    ensures { OnOk result (out.new.items ≡ out.old.items ++ time_text time) }
{
    print_fixed(time as i128, 18, out)
}

/// Adds an energy in eV, which is given in neV.
pub(crate) fn push_energy(out: &mut Vec<u8>, energy: i128) -> Result<(), OutOfMemory>
    ensures { OnOk result (out.new.items ≡ out.old.items ++ energy_text energy) }
{
    print_fixed(energy, 9, out)
}

/// Adds a temperature in K, which is given in mK.
pub(crate) fn push_temperature(out: &mut Vec<u8>, temperature: u32) -> Result<(), OutOfMemory>
    ensures { OnOk result (out.new.items ≡ out.old.items ++ temperature_text temperature) }
{
    print_fixed(i128::from(temperature), 3, out)
}

/// Adds the start of a sample's first line: a word, the number of the sample, the event and the time.
#[tactic(auto, unfolding(crate::specs::Words::sample_start))]
pub(crate) fn push_sample_start(
    out: &mut Vec<u8>,
    word: &[u8],
    sample: u64,
    event: u64,
    time: u128,
) -> Result<(), OutOfMemory>
    requires { time < 2 ^ 127 }
    ensures { OnOk result (out.new.items ≡ out.old.items ++ sample_start word.now sample event time) }
{
    push_text(out, word)?;
    push_next_number(out, sample)?;
    push_text(out, b" event")?;
    push_next_number(out, event)?;
    push_text(out, b" time ")?;
    push_time(out, time)
}
