//! The addresses in the slots of a block of an array.
ghost use Rattle.std.specs.Prelude.{◌≡◌, ◌+◌, ◌≤◌, ◌++◌, length, take, drop, get_or, OnOk};
ghost use Rattle.h5w_model.specs.Arrays.{slots_len};
ghost use Rattle.h5w_model.specs.Numbers.{undefined};

use h5w_bytes::UNDEFINED;
use h5w_ea::slot;
use h5w_model::OutOfMemory;

/// The slots of a data block or a secondary block, by its bytes: an address is read where it is asked for.
#[derive(Drop)]
pub struct Addresses {
    pub bytes: Vec<u8>,
    /// How many slots there are.
    pub n: usize,
    ghost whole: { slots_len n ≤ length bytes.items },
}

impl Addresses {
    ghost use Rattle.h5w_lookup.specs.Contents.{addresses_in};

    /// The address in a slot; undefined behind the last.
    pub fn get(&self, i: usize) -> u64
        ensures { result ≡ get_or (addresses_in self.now) i undefined }
    {
        if i < self.n {
            slot(self.bytes.as_slice(), i)
        } else {
            UNDEFINED
        }
    }

    /// Puts the addresses in `count` slots, from slot `first` on, behind others.
    pub fn put(&self, first: usize, count: usize, out: &mut Vec<u64>) -> Result<(), OutOfMemory>
        requires { first + count ≤ self.now.n }
        ensures { OnOk result (out.new.items ≡ out.old.items ++ take count (drop first (addresses_in self.now))) }
    {
        let bytes = self.bytes.as_slice();
        for k in 0..count {
            out.push(slot(bytes, first + k))?;
        }
        Ok(())
    }
}
