//! What a path asks of the file whose path it is.
ghost use Rattle.std.specs.Prelude.{◌≡◌, ◌<◌, ℕ, List, Option, IfOk, length, slice_index};

use key_order::key_pages::Key;
use std::alloc::{AllocError, Global};

/// The formats of a file: which records of its members each selects, and under which keys.
pub trait Entrant {
    /// The bytes of the key that a format has of an image; none where it doesn't select it.
    ghost keys: { Self → ℕ → List ℕ → Option (List ℕ) };

    /// The images that a format can be asked about.
    ghost takes: { Self → ℕ → List ℕ → Type 0 };

    /// The number of the member under each format.
    ghost members: { Self → List ℕ };

    /// The number of formats.
    fn formats(&self) -> u16
        ensures { result ≡ length (members self.now) };

    /// The number of the member under a format.
    fn member(&self, format: u16) -> u32
        requires { format < length (members self.now) }
        ensures { result ≡ slice_index (members self.now) format };

    /// The key that a format has of an image.
    fn key(&self, alloc: Global, format: u16, image: &[u8]) -> Result<Option<Key>, AllocError>
        requires { takes self.now format image.now }
        ensures { IfOk result (λ key. key ≡ keys self.now format image.now) };
}
