//! The fields of an image: bytes and numbers.
ghost use Rattle.std.specs.Prelude.{◌≡◌, ◌≢◌, ◌≤◌, [], length, IfOk, IfErr, OnOk, OnErr};
ghost use Rattle.std.specs.Int.{w16, w32, w64};
ghost use Rattle.mc_image.specs.ImageReading as reading;

use crate::{ImageFault, ImageKind};
use mc_script::{Mask, Version};
use std::marker::Model;

/// Takes the fields of an image, one after another. Contracts see the bytes that are left.
#[derive(Drop)]
pub(crate) struct Fields<'a> {
    rest: &'a [u8],
    /// How many bytes the image has.
    size: usize,
}

impl<'a> Model for Fields<'a> {
    ghost use Rattle.std.specs.Prelude.{ℕ, List, length, ◌≤◌};

    ghost Value = { List ℕ };

    ghost view = { λ f. f.rest.now };

    ghost invariant = { λ f. length f.rest.now ≤ f.size };
}

impl<'a> Fields<'a> {
    /// The fields of an image, before the first.
    pub(crate) fn new(bytes: &'a [u8]) -> Self
        ensures { result ≡ bytes.entry.now }
    {
        Fields {
            rest: bytes,
            size: bytes.len(),
        }
    }

    /// The offset of the next byte.
    pub(crate) fn offset(&self) -> usize {
        self.size - self.rest.len()
    }

    /// Takes `count` bytes.
    #[tactic(auto, unfolding(crate::specs::ImageReading::bytes_in))]
    pub(crate) fn bytes(&mut self, count: usize) -> Result<&'a [u8], ImageFault>
        ensures read { reading.Reads (λ bytes. (bytes.now, self.new)) result (reading.bytes_in count self.old) }
        ensures whole { IfOk result (λ bytes. length bytes.now ≡ count) }
    {
        if self.rest.len() < count {
            return Err(self.short_fault());
        }
        let (bytes, rest) = self.rest.split_at(count);
        self.rest = rest;
        Ok(bytes)
    }

    /// Takes a byte.
    #[tactic(auto, unfolding(crate::specs::ImageReading::byte_in))]
    pub(crate) fn byte(&mut self) -> Result<u8, ImageFault>
        ensures { reading.Reads (λ byte. (byte, self.new)) result (reading.byte_in self.old) }
    {
        let [byte, rest @ ..] = self.rest else {
            return Err(self.short_fault());
        };
        self.rest = rest;
        Ok(*byte)
    }

    /// Takes a number of 16 bits.
    #[tactic(auto, unfolding(crate::specs::ImageReading::number_in))]
    pub(crate) fn number_16(&mut self) -> Result<u16, ImageFault>
        ensures { reading.Reads (λ number. (number, self.new)) result (reading.number_in w16 self.old) }
    {
        let bytes = self.bytes(2)?;
        Ok(u16::from_be_bytes([bytes[0], bytes[1]]))
    }

    /// Takes a number of 32 bits.
    #[tactic(auto, unfolding(crate::specs::ImageReading::number_in))]
    pub(crate) fn number_32(&mut self) -> Result<u32, ImageFault>
        ensures { reading.Reads (λ number. (number, self.new)) result (reading.number_in w32 self.old) }
    {
        let bytes = self.bytes(4)?;
        Ok(u32::from_be_bytes([bytes[0], bytes[1], bytes[2], bytes[3]]))
    }

    /// Takes a number of 64 bits.
    #[tactic(auto, unfolding(crate::specs::ImageReading::number_in))]
    pub(crate) fn number_64(&mut self) -> Result<u64, ImageFault>
        ensures { reading.Reads (λ number. (number, self.new)) result (reading.number_in w64 self.old) }
    {
        let bytes = self.bytes(8)?;
        Ok(u64::from_be_bytes([
            bytes[0], bytes[1], bytes[2], bytes[3], bytes[4], bytes[5], bytes[6], bytes[7],
        ]))
    }

    /// Takes a mask of flags, as wide as an image of the version has it.
    #[tactic(auto, unfolding(crate::specs::ImageReading::mask_in))]
    pub(crate) fn mask(&mut self, version: Version) -> Result<Mask, ImageFault>
        ensures { reading.Reads (λ mask. (mask, self.new)) result (reading.mask_in version self.old) }
    {
        match version {
            Version::One => Ok(Mask::from(self.number_32()?)),
            Version::Two => self.number_64(),
        }
    }

    /// Takes a byte that is a number from `least` to `greatest`.
    #[tactic(auto, unfolding(crate::specs::ImageReading::small_in))]
    pub(crate) fn byte_within(&mut self, least: usize, greatest: usize) -> Result<u8, ImageFault>
        ensures read { reading.Reads (λ number. (number, self.new)) result (reading.small_in least greatest self.old) }
        ensures within { IfOk result (λ number. number ≤ greatest) }
    {
        let offset = self.offset();
        let number = self.byte()?;
        if !(least..=greatest).contains(&usize::from(number)) {
            return Err(ImageFault::at(ImageKind::Range, offset));
        }
        Ok(number)
    }

    /// Takes a byte that is a number from `least` to `greatest`, and then that number of bytes.
    #[tactic(auto, unfolding(crate::specs::ImageReading::sized_in))]
    pub(crate) fn counted_bytes(
        &mut self,
        least: usize,
        greatest: usize,
    ) -> Result<&'a [u8], ImageFault>
        ensures { reading.Reads (λ bytes. (bytes.now, self.new)) result (reading.sized_in least greatest self.old) }
    {
        let count = self.byte_within(least, greatest)?;
        self.bytes(usize::from(count))
    }

    /// Checks that no byte is left.
    pub(crate) fn finish(&self) -> Result<(), ImageFault>
        ensures end { OnOk result (self.now ≡ []) }
        ensures more { OnErr result (self.now ≢ []) }
        ensures kind { IfErr result (λ fault. fault.kind ≡ ImageKind.Extra) }
    {
        if self.rest.is_empty() {
            Ok(())
        } else {
            Err(ImageFault::at(ImageKind::Extra, self.offset()))
        }
    }

    /// The fault that the next field isn't whole.
    fn short_fault(&self) -> ImageFault
        ensures { result.kind ≡ ImageKind.Short }
    {
        ImageFault::at(ImageKind::Short, self.offset())
    }
}
