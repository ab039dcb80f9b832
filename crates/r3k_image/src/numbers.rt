//! The numbers of the image format (own): nothing runs here.

ghost use Rattle.std.specs.Prelude.{◌≡◌, codes, [], ◌∷◌, ◌++◌};
ghost use Rattle.r3k_image.specs.declared.header.TheConstants.{MAGIC};

/// The first eight bytes: a name, and a line feed.
pub fn image_numbers()
    ensures magic { MAGIC ≡ codes "R3KIMG1" ++ 10 ∷ [] }
{}
