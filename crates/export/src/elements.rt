// Residues from numbers, and numbers from residues.
use ring::Residue;

// Writes the residue of each number, as far as both slices go.
#[unsafe(no_mangle)]
pub extern "C" fn mossplane_residues(numbers: &[u64], residues: &mut [Residue]) {
    for (residue, number) in residues.iter_mut().zip(numbers) {
        *residue = Residue::new(*number);
    }
}

// Writes the canonical number of each residue, as far as both slices go.
#[unsafe(no_mangle)]
pub extern "C" fn mossplane_numbers(residues: &[Residue], numbers: &mut [u32]) {
    for (number, residue) in numbers.iter_mut().zip(residues) {
        *number = residue.number();
    }
}
