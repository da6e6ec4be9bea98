ghost use Rattle.std.specs.Prelude.{◌≡◌, ◌+◌, ◌*◌, ◌^◌, ◌<◌, ◌++◌, length};
ghost use Rattle.pef_pidata.specs.Pattern.{copied_len, output, repeated, spelled_len, woven};

use crate::instruction::Instruction;

impl Instruction {
    /// Writes the output of the instruction, from the bytes that it copies.
    pub fn write(&self, bytes: &[u8], target: &mut [u8])
        requires bytes { length bytes.now ≡ copied_len self.now }
        requires target { length target.old ≡ spelled_len self.now }
        ensures { target.new ≡ output self.now bytes.now }
    {
        match *self {
            Instruction::Zeros(_) => target.fill(0),
            Instruction::Block(_) => target.copy_from_slice(bytes),
            Instruction::Repeat { repeats, .. } => repeat(bytes, repeats, target),
            Instruction::Weave(woven) => {
                let (common, parts) = bytes.split_at(woven.common as usize);
                Common::Bytes(common).weave(
                    parts,
                    woven.custom as usize,
                    woven.parts as usize,
                    target,
                );
            }
            Instruction::WeaveZeros(woven) => {
                Common::Zeros(woven.common as usize).weave(
                    bytes,
                    woven.custom as usize,
                    woven.parts as usize,
                    target,
                );
            }
        }
    }
}

/// Writes a block, and the same `repeats` more times: the bytes written so far are copied after
/// themselves.
fn repeat(block: &[u8], repeats: u32, target: &mut [u8])
    requires { length target.old ≡ length block.now * (repeats + 1) }
    ensures { target.new ≡ repeated (repeats + 1) block.now }
{
    target[..block.len()].copy_from_slice(block);
    let mut done = block.len();
    while done < target.len() {
        let (front, back) = target.split_at_mut(done);
        let more = front.len().min(back.len());
        back[..more].copy_from_slice(&front[..more]);
        done += more;
    }
}

/// The common part: the bytes before each custom part, and once more after the last.
#[derive(Clone, Copy)]
enum Common<'a> {
    Bytes(&'a [u8]),
    /// This many zero bytes.
    Zeros(usize),
}

impl Common<'_> {
    ghost use Rattle.pef_pidata.specs.Kept.Views.{common_seen};

    fn len(self) -> usize
        ensures { result ≡ length (common_seen self.entry) }
    {
        match self {
            Common::Bytes(bytes) => bytes.len(),
            Common::Zeros(count) => count,
        }
    }

    fn write(self, target: &mut [u8])
        requires { length target.old ≡ length (common_seen self) }
        ensures { target.new ≡ common_seen self.entry }
    {
        match self {
            Common::Bytes(bytes) => target.copy_from_slice(bytes),
            Common::Zeros(_) => target.fill(0),
        }
    }

    /// Writes the common part, and a custom part after it.
    fn write_before(self, part: &[u8], target: &mut [u8])
        requires { length target.old ≡ length (common_seen self) + length part.now }
        ensures { target.new ≡ common_seen self.entry ++ part.now }
    {
        let (front, back) = target.split_at_mut(self.len());
        self.write(front);
        back.copy_from_slice(part);
    }

    /// Writes the common part before each of `count` custom parts of `size` bytes, and once more at the
    /// end.
    fn weave(self, parts: &[u8], size: usize, count: usize, target: &mut [u8])
        requires size { size < 2 ^ 32 }
        requires parts { length parts.now ≡ size * count }
        requires target { length target.old ≡ length (common_seen self) * (count + 1) + size * count }
        ensures { target.new ≡ woven count size (common_seen self.entry) parts.now }
    {
        if target.is_empty() {
            return;
        }
        let step = self.len() + size;
        for i in 0..count {
            let part = &parts[i * size..(i + 1) * size];
            self.write_before(part, &mut target[i * step..(i + 1) * step]);
        }
        self.write(&mut target[count * step..]);
    }
}
