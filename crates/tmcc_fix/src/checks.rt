//! The checks of the cyclic code of length 273.

ghost use Rattle.std.specs.Prelude.{◌≡◌, ℕ, ◌+◌, ◌<◌, ◌%◌, ◌≤◌, slice_index};
ghost use Rattle.tmcc_fix.specs.Checks.{bit, parity_at, odd_at};

/// Seventeen residues modulo 273 whose 272 differences are all distinct. The places `s - r` modulo 273, with r over the
/// residues, are the check with shift s: they hold an even number of the ones of each codeword.
pub static RESIDUES: [u8; 17] = [
    5, 10, 20, 39, 40, 47, 78, 80, 91, 94, 103, 139, 156, 160, 182, 188, 206,
];

/// The residues, read where they stand.
fn residues() -> &'static [u8; 17]
    ensures { result.now ≡ RESIDUES }
{
    &RESIDUES
}

/// Bits of the places 0 to 272, which are 0 from place 184 on.
fn bits_of_places(bits: &[bool; 184]) -> [u8; 273]
    ensures { (place : ℕ) → place < 273 → slice_index result place ≡ bit bits.now place }
{
    let mut places = [0u8; 273];
    for place in 0..184 {
        places[place] = u8::from(bits[place]);
    }
    places
}

/// Numbers of the places 0 to 272, twice over, so that a cyclic shift of them stands in one piece.
fn doubled(numbers: &[u8; 273]) -> [u8; 546]
    ensures { (i : ℕ) → i < 546 → slice_index result i ≡ slice_index numbers.now (i % 273) }
{
    let mut doubled = [0u8; 546];
    doubled[..273].copy_from_slice(numbers);
    doubled[273..].copy_from_slice(numbers);
    doubled
}

/// Adds to each sum the term of its place, the first at `from`.
fn add_terms(sums: &mut [u8; 273], terms: &[u8; 546], from: usize)
    requires start { from ≤ 273 }
    requires fits { (k : ℕ) → k < 273 → slice_index sums.old k + slice_index terms.now (from + k) < 256 }
    ensures { (k : ℕ) → k < 273 → slice_index sums.new k ≡ slice_index sums.old k + slice_index terms.now (from + k) }
{
    for k in 0..273 {
        sums[k] += terms[from + k];
    }
}

/// Each number modulo 2.
fn parities(numbers: &[u8; 273]) -> [u8; 273]
    ensures value { (k : ℕ) → k < 273 → slice_index result k ≡ slice_index numbers.now k % 2 }
    ensures most { (k : ℕ) → slice_index result k ≤ 1 }
{
    let mut parities = [0u8; 273];
    for k in 0..273 {
        parities[k] = numbers[k] % 2;
    }
    parities
}

/// How many ones each check covers, by shift.
fn ones_of_checks(bits: &[bool; 184]) -> [u8; 273]
    ensures { (shift : ℕ) → shift < 273 → slice_index result shift % 2 ≡ parity_at bits.now shift }
{
    let terms = doubled(&bits_of_places(bits));
    let mut ones = [0u8; 273];
    for residue in residues() {
        add_terms(&mut ones, &terms, 273 - usize::from(*residue));
    }
    ones
}

/// Sums modulo 2 of the bits that the checks cover, by shift.
pub fn parities_of_checks(bits: &[bool; 184]) -> [u8; 273]
    ensures value { (shift : ℕ) → shift < 273 → slice_index result shift ≡ parity_at bits.now shift }
    ensures most { (shift : ℕ) → slice_index result shift ≤ 1 }
{
    parities(&ones_of_checks(bits))
}

/// How many of the 17 checks that cover a place are odd, by place.
pub fn odd_checks(parities: &[u8; 273]) -> [u8; 273]
    requires { (shift : ℕ) → slice_index parities.now shift ≤ 1 }
    ensures { (place : ℕ) → place < 273 → slice_index result place ≡ odd_at parities.now place }
{
    let terms = doubled(parities);
    let mut odd = [0u8; 273];
    for residue in residues() {
        add_terms(&mut odd, &terms, usize::from(*residue));
    }
    odd
}
