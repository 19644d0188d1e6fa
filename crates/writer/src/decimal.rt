// Numbers written out.
ghost use Rattle.std.specs.Prelude.{◌≡◌, ◌+◌, ◌≤◌, length};
ghost use Rattle.text.specs.Number.{decimal};
ghost use Rattle.graph.specs.Lent.{laid};

// How many digits a number has. Those of a graph's own numbers are told by comparisons, which cost less than a logarithm.
pub(crate) fn decimal_length(number: u32) -> usize
    ensures { result ≡ length (decimal number) }
{
    match number {
        0..=9 => 1,
        10..=99 => 2,
        100..=999 => 3,
        1_000..=9_999 => 4,
        _ => number.ilog10() as usize + 1,
    }
}

// Writes a number from a place on, the last digit first, and answers the place after it.
pub(crate) fn put_decimal(bytes: &mut [u8], at: usize, number: u32) -> usize
    requires { at + length (decimal number) ≤ length bytes.old }
    ensures value { result ≡ at + length (decimal number) }
    ensures bytes_after { bytes.new ≡ laid at (decimal number) bytes.old }
{
    let end = at + decimal_length(number);
    let mut place = end;
    let mut left = number;
    // A while: it ends with the number and not at an index, and the first digit needs no division.
    while 10 <= left {
        place -= 1;
        bytes[place] = b'0' + (left % 10) as u8;
        left /= 10;
    }
    bytes[at] = b'0' + left as u8;
    end
}
