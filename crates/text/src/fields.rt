// Numbers and lines of the listing. Each function lays down its text from a position on, and says where the next one goes.
ghost use Rattle.std.specs.Prelude.{◌≡◌, [], ◌∷◌, ◌+◌, ◌≤◌, length};
ghost use Rattle.std.proofs.lemmas.List.Edits.{sets};
ghost use Rattle.text.specs.Decimal.{decimal};
ghost use Rattle.text.specs.Listing.{field, line, refused_text};

// A number in decimal.
pub fn put_decimal(out: &mut [u8], at: usize, x: u64) -> usize
    requires { at + length (decimal x) ≤ length out.old }
    ensures { (out.new ≡ sets out.old at (decimal x)) × (result ≡ at + length (decimal x)) }
{
    if x < 10 {
        out[at] = (48 + x) as u8;
        return at + 1;
    }
    let last = put_decimal(&mut *out, at, x / 10);
    out[last] = (48 + x % 10) as u8;
    last + 1
}

// A field and the byte after it.
pub fn put_field(out: &mut [u8], at: usize, x: u64, end: u8) -> usize
    requires { at + length (field x end) ≤ length out.old }
    ensures { (out.new ≡ sets out.old at (field x end)) × (result ≡ at + length (field x end)) }
{
    let last = put_decimal(&mut *out, at, x);
    out[last] = end;
    last + 1
}

// A line of four fields.
pub fn put_line(out: &mut [u8], at: usize, a: u64, b: u64, c: u64, d: u64) -> usize
    requires { at + length (line (a ∷ b ∷ c ∷ d ∷ [])) ≤ length out.old }
    ensures { (out.new ≡ sets out.old at (line (a ∷ b ∷ c ∷ d ∷ [])))
        × (result ≡ at + length (line (a ∷ b ∷ c ∷ d ∷ []))) }
{
    let second = put_field(out, at, a, b' ');
    let third = put_field(out, second, b, b' ');
    let fourth = put_field(out, third, c, b' ');
    put_field(out, fourth, d, b'\n')
}

// The line of a refused plan.
pub fn put_refused(out: &mut [u8], number: u32) -> usize
    requires { length (refused_text number) ≤ length out.old }
    ensures { (out.new ≡ sets out.old 0 (refused_text number)) × (result ≡ length (refused_text number)) }
{
    plan_lists::copy_first(b"refused ", out, 0, 8);
    put_field(out, 8, number as u64, b'\n')
}
