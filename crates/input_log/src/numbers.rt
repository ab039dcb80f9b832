//! The numbers of the log format (own): nothing runs here.

ghost use Rattle.std.specs.Prelude.{◌≡◌, codes, [], ◌∷◌, ◌++◌};
ghost use Rattle.input_log.specs.declared.format.TheConstants.{MAGIC_ONE, MAGIC_TWO};

/// The first eight bytes of each version: a name, and a line feed.
pub fn log_numbers()
    ensures magic_one { MAGIC_ONE ≡ codes "R3KLOG1" ++ 10 ∷ [] }
    ensures magic_two { MAGIC_TWO ≡ codes "R3KLOG2" ++ 10 ∷ [] }
{}
