//! Whether what is kept of layouts is exact for a component.
ghost use Rattle.std.specs.Prelude.{◌≡◌, false, IsTrue};
ghost use Rattle.sound_laws.specs.Search.{IsKeptWhole};

use rdl_tree::shell::Kind;

/// The greatest size of an address map or a register file, in bytes, of which layouts are kept as they are.
const MAX_SIZE: u64 = 1 << 40;

/// Whether what is kept of the layouts of a component of this kind and size is exact: of a register or a field always, of another one
/// of no more than 2^40 bytes. The size is in bytes, that of a field in bits.
pub fn is_kept_whole(kind: Kind, size: u64) -> bool
    ensures whole { IsTrue result → IsKeptWhole kind size }
    ensures cut { result ≡ false → IsKeptWhole kind size → ⊥ }
{
    match kind {
        Kind::Addrmap | Kind::Regfile => size <= MAX_SIZE,
        Kind::Reg | Kind::Field => true,
    }
}
