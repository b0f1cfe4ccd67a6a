// Layouts as bytes.
ghost use Rattle.std.specs.Prelude.{◌≡◌, ◌+◌, ◌*◌, ◌≤◌, [], ◌∷◌, length, MatchResult, nat_lt};
ghost use Rattle.std.proofs.Math.Seq.{paste};
ghost use Rattle.std.specs.List.{flat_map};
ghost use Rattle.ring.specs.Bytes.{eight, over};
ghost use Rattle.ring.specs.Checks.{verdict, when};
ghost use Rattle.layout.specs.declared.error.JaggedLayoutError.TheVariants.{BufferTooShort};
ghost use Rattle.layout.specs.Encoding.{layout_bytes, layout_length, BytesTell};
ghost use Rattle.layout.specs.Layout.{shape};

use crate::error::JaggedLayoutError;
use crate::geometry::JaggedLayout;

impl JaggedLayout {
    // Writes the layout to the front of the bytes, and tells how many it took.
    pub fn encode_layout(&self, bytes: &mut [u8]) -> Result<usize, JaggedLayoutError>
        ensures answer { result ≡ verdict (when (nat_lt (length bytes.old) (layout_length (shape self.now))) (BufferTooShort (layout_length (shape self.now)) (length bytes.old)) ∷ []) (layout_length (shape self.now)) }
        ensures after { MatchResult result (λ _. bytes.new ≡ over (layout_bytes (shape self.now)) bytes.old) (λ _. bytes.new ≡ bytes.old) }
        ensures len { length (layout_bytes (shape self.now)) ≡ layout_length (shape self.now) }
        ensures tell { BytesTell }
    {
        let count = self.columns + 1;
        let required = 24 + 8 * count;
        if bytes.len() < required {
            return Err(JaggedLayoutError::BufferTooShort {
                required,
                available: bytes.len(),
            });
        }
        put_numbers(bytes, 0, &[self.row_variables, self.dense_variables, count]);
        put_numbers(bytes, 24, self.cumulative_heights());
        Ok(required)
    }
}

// Writes numbers one after the other, each to eight bytes, the most significant first. The place is counted, since the
// library tells nothing of a slice's bytes once a loop over its chunks is over.
fn put_numbers(bytes: &mut [u8], at: usize, numbers: &[usize])
    requires { at + 8 * length numbers.now ≤ length bytes.old }
    ensures { bytes.new ≡ paste bytes.old at (flat_map eight numbers.now) (8 * length numbers.now) }
{
    for (place, number) in numbers.iter().enumerate() {
        let start = at + 8 * place;
        bytes[start..start + 8].copy_from_slice(&number.to_be_bytes());
    }
}
