//! Facts of the definitions, by computation.

ghost use Rattle.std.specs.Prelude.{◌≡◌, ℤ, pos, negsuc, true, false, codes};
ghost use Rattle.java_values.specs.Kinds.{IsInRange};
ghost use Rattle.java_values.specs.Names.{is_name, is_channel_name};
ghost use Rattle.java_values.specs.Arithmetic.{wrapped, cast_to, applied1, applied2};

use crate::kind::Kind;
use crate::op::{Op1, Op2};

/// A wrapped number is in its kind's range, and a number that is in the range already stays as it is.
pub fn wrapped_numbers_are_in_range()
    ensures range { (k : Kind) (n : ℤ) → IsInRange k (wrapped k n) }
    ensures kept { (k : Kind) (n : ℤ) → IsInRange k n → wrapped k n ≡ n }
{}

/// The least number divided by -1 wraps to itself, and leaves 0.
pub fn least_number_by_minus_one()
    ensures int { applied2 Op2.Div Kind.Int (negsuc 2147483647) Kind.Int (negsuc 0) ≡
        negsuc 2147483647 }
    ensures long { applied2 Op2.Div Kind.Long (negsuc 9223372036854775807) Kind.Int (negsuc 0) ≡
        negsuc 9223372036854775807 }
    ensures remainder { applied2 Op2.Rem Kind.Int (negsuc 2147483647) Kind.Int (negsuc 0) ≡ pos 0 }
    ensures negated { applied1 Op1.Minus Kind.Int (negsuc 2147483647) ≡ negsuc 2147483647 }
{}

/// `/` rounds toward zero and `%` has the dividend's sign.
pub fn division_rounds_toward_zero()
    ensures quotient { applied2 Op2.Div Kind.Int (negsuc 6) Kind.Int (pos 2) ≡ negsuc 2 }
    ensures remainder { applied2 Op2.Rem Kind.Int (negsuc 6) Kind.Int (pos 2) ≡ negsuc 0 }
    ensures positive { applied2 Op2.Rem Kind.Int (pos 7) Kind.Int (negsuc 1) ≡ pos 1 }
    ensures zero { applied2 Op2.Div Kind.Int (pos 7) Kind.Int (pos 0) ≡ pos 0 }
{}

/// `int` shifts by the low 5 bits of the distance and `long` by the low 6, whatever the kind of the
/// distance; `>>>` shifts in zeros.
pub fn shifts_mask_their_distance()
    ensures int { applied2 Op2.Shl Kind.Int (pos 1) Kind.Long (pos 33) ≡ pos 2 }
    ensures long { applied2 Op2.Shl Kind.Long (pos 1) Kind.Int (pos 33) ≡ pos 8589934592 }
    ensures minus_one { applied2 Op2.Shl Kind.Int (pos 1) Kind.Int (negsuc 0) ≡ negsuc 2147483647 }
    ensures signed { applied2 Op2.Shr Kind.Int (negsuc 8) Kind.Int (pos 1) ≡ negsuc 4 }
    ensures unsigned { applied2 Op2.Ushr Kind.Byte (negsuc 0) Kind.Int (pos 28) ≡ pos 15 }
    ensures unsigned_by_zero { applied2 Op2.Ushr Kind.Int (negsuc 0) Kind.Int (pos 32) ≡ negsuc 0 }
{}

/// A cast keeps the low bits.
pub fn casts_keep_low_bits()
    ensures byte { cast_to Kind.Byte (pos 200) ≡ negsuc 55 }
    ensures char { cast_to Kind.Char (negsuc 0) ≡ pos 65535 }
    ensures short { cast_to Kind.Short (pos 32768) ≡ negsuc 32767 }
    ensures int { cast_to Kind.Int (pos 4294967297) ≡ pos 1 }
{}

/// A channel's name may end in `.` and a number below 64.
pub fn made_channel_names()
    ensures plain { is_channel_name (codes "C") ≡ true }
    ensures made { is_channel_name (codes "C.0") ≡ true }
    ensures last { is_channel_name (codes "C.63") ≡ true }
    ensures past { is_channel_name (codes "C.64") ≡ false }
    ensures zero { is_channel_name (codes "C.07") ≡ false }
    ensures bare { is_channel_name (codes "C.") ≡ false }
    ensures twice { is_channel_name (codes "C.1.2") ≡ false }
    ensures reserved { is_channel_name (codes "emit.1") ≡ false }
    ensures name { is_name (codes "C.0") ≡ false }
{}
