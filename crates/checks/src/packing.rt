//! Packs the fields of a page, most significant bit first: written apart from the page crate, so that it tests it.
use std::alloc::{AllocError, Global};

// A field: its number and its width in bits.
pub(crate) type Field = (u32, u32);

// The bits packed so far: whole bytes, and the bits of the next.
#[derive(Drop)]
pub(crate) struct Packer {
    bytes: Vec<u8>,
    byte: u8,
    filled: u8,
}

impl Packer {
    pub(crate) fn new(heap: Global) -> Packer {
        Packer {
            bytes: Vec::new(heap),
            byte: 0,
            filled: 0,
        }
    }

    fn bit(&mut self, bit: u8) -> Result<(), AllocError> {
        self.byte = self.byte.wrapping_mul(2) | bit;
        self.filled = self.filled.wrapping_add(1);
        if self.filled == 8 {
            self.bytes.push(self.byte)?;
            self.byte = 0;
            self.filled = 0;
        }
        Ok(())
    }

    pub(crate) fn field(&mut self, number: u32, width: u32) -> Result<(), AllocError> {
        for i in (0..width.min(32)).rev() {
            self.bit((number >> i & 1) as u8)?;
        }
        Ok(())
    }

    pub(crate) fn fields(&mut self, fields: &[Field]) -> Result<(), AllocError> {
        for (number, width) in fields {
            self.field(*number, *width)?;
        }
        Ok(())
    }

    // The bytes, the last filled up with zero bits.
    pub(crate) fn finish(mut self) -> Result<Vec<u8>, AllocError> {
        for _ in 0..7 {
            if self.filled != 0 {
                self.bit(0)?;
            }
        }
        let Packer { bytes, .. } = self;
        Ok(bytes)
    }
}

// The bytes of a page of these fields.
pub(crate) fn packed(heap: Global, fields: &[Field]) -> Result<Vec<u8>, AllocError> {
    let mut packer = Packer::new(heap);
    packer.fields(fields)?;
    packer.finish()
}
