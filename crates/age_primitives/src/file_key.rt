//! File keys.

ghost use Rattle.std.specs.Prelude.{◌≡◌, List, ℕ, replicate, IfOk, Ok, Err, MatchResult};
ghost use Rattle.std.specs.Fn.{FnOnceTakesAtMut, FnOnceReturnsAtMut};

use std::alloc::{AllocError, Global};
use std::marker::Model;

/// How many bytes a file key has.
pub const FILE_KEY_BYTES: usize = 16;

/// A key that a file is sealed or opened with. Contracts see its 16 bytes.
#[derive(Drop)]
pub struct FileKey {
    bytes: Box<[u8; FILE_KEY_BYTES]>,
}

impl Model for FileKey {
    ghost use Rattle.std.specs.Prelude.{ℕ, List};

    ghost Value = { List ℕ };

    ghost view = { λ key. key.bytes.value };
}

impl FileKey {
    /// The file key of these bytes.
    pub fn new(file_key: Box<[u8; FILE_KEY_BYTES]>) -> FileKey
        ensures { result ≡ file_key.value }
    {
        FileKey { bytes: file_key }
    }

    /// The file key that one call of `ctr` leaves in 16 zero bytes. The only error is want of memory; `ctr` is
    /// then not called.
    pub fn init_with_mut<F>(alloc: Global, ctr: F) -> Result<FileKey, AllocError>
    where
        F: FnOnce(&mut [u8; FILE_KEY_BYTES]) + Drop,
        requires { FnOnceTakesAtMut F.FnOnce ctr (replicate 16 0) }
        ensures { IfOk result (λ key. FnOnceReturnsAtMut F.FnOnce ctr (replicate 16 0) tt key) }
    {
        let mut bytes = Box::new(alloc, [0; FILE_KEY_BYTES])?;
        fill(&mut bytes, ctr);
        Ok(FileKey { bytes })
    }

    /// The file key that one call of `ctr` leaves in 16 zero bytes, or the error that it answers. The outer
    /// error is want of memory; `ctr` is then not called.
    pub fn try_init_with_mut<E, F>(alloc: Global, ctr: F) -> Result<Result<FileKey, E>, AllocError>
    where
        F: FnOnce(&mut [u8; FILE_KEY_BYTES]) -> Result<(), E> + Drop,
        requires { FnOnceTakesAtMut F.FnOnce ctr (replicate 16 0) }
        ensures { IfOk result (λ made. MatchResult made
            (λ key. FnOnceReturnsAtMut F.FnOnce ctr (replicate 16 0) (Ok tt) key)
            (λ e. (left : List ℕ) × FnOnceReturnsAtMut F.FnOnce ctr (replicate 16 0) (Err e) left)) }
    {
        let mut bytes = Box::new(alloc, [0; FILE_KEY_BYTES])?;
        match try_fill(&mut bytes, ctr) {
            Ok(()) => Ok(Ok(FileKey { bytes })),
            Err(error) => Ok(Err(error)),
        }
    }

    /// The 16 bytes.
    pub fn expose_secret(&self) -> &[u8; FILE_KEY_BYTES]
        ensures { result.now ≡ self.now }
    {
        &self.bytes
    }
}

// Calls the closure at these bytes.
fn fill<F>(bytes: &mut [u8; FILE_KEY_BYTES], ctr: F)
where
    F: FnOnce(&mut [u8; FILE_KEY_BYTES]) + Drop,
    requires { FnOnceTakesAtMut F.FnOnce ctr bytes.old }
    ensures { FnOnceReturnsAtMut F.FnOnce ctr bytes.old tt bytes.new }
{
    ctr(bytes);
}

// Calls the closure at these bytes, and gives its answer.
fn try_fill<E, F>(bytes: &mut [u8; FILE_KEY_BYTES], ctr: F) -> Result<(), E>
where
    F: FnOnce(&mut [u8; FILE_KEY_BYTES]) -> Result<(), E> + Drop,
    requires { FnOnceTakesAtMut F.FnOnce ctr bytes.old }
    ensures { FnOnceReturnsAtMut F.FnOnce ctr bytes.old result bytes.new }
{
    ctr(bytes)
}
