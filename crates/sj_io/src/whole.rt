// Whole files and whole texts, over any files and any sink.

ghost use Rattle.std.specs.Prelude.{◌≡◌, ◌+◌, ◌≤◌, ◌<◌, length, take, IfOk, IfSome, OnOk, OnErr, IsErrOf, vec_len};
ghost use Rattle.sj_io.specs.definitions.Causes.{Rose};
ghost use Rattle.sj_io.specs.definitions.Files.{CountsStay, Keeps};
ghost use Rattle.sj_io.specs.definitions.Sinks.{TakesMore, TakesPrefix};

use crate::files::Files;
use crate::sink::Sink;
use std::alloc::Global;
use thiserror::Error;

#[derive(Clone, Copy, Debug, PartialEq, Eq, Error)]
pub enum ReadError {
    /// A read failed: the count of the file's name rose.
    #[error("the file could not be read")]
    Fault,
    /// The file has more bytes than the limit.
    #[error("the file is too big")]
    TooBig,
    /// An allocation was refused.
    #[error("no memory")]
    NoMemory,
}

#[derive(Clone, Copy, Debug, PartialEq, Eq, Error)]
pub enum WriteError {
    /// A write failed: the sink's count rose.
    #[error("the sink failed")]
    Fault,
}

// Reads one piece, and puts it behind the bytes read so far.
#[tactic(auto, using(crate::proofs::Pieces::reads_on))]
fn read_piece<F: Files>(
    files: &mut F,
    name: &str,
    piece: &mut [u8],
    bytes: &mut Vec<u8>,
) -> Result<usize, ReadError>
    ensures known { F.known files.new ≡ F.known files.old }
    ensures cause { IsErrOf result ReadError.Fault →
        Rose (F.faults files.old name.now) (F.faults files.new name.now) }
    ensures counts_stay { (IsErrOf result ReadError.Fault → ⊥) →
        CountsStay (F.faults files.old) (F.faults files.new) }
    ensures keeps { Keeps (F.known files.old) (F.told files.old) (F.told files.new)
        (F.faults files.old) (F.faults files.new) name.now }
    ensures not_big { IsErrOf result ReadError.TooBig → ⊥ }
    ensures size { IfOk result (λ n. (n ≤ length piece.new) ×
        (vec_len bytes.new ≡ vec_len bytes.old + n)) }
    ensures more { IfOk result (λ n. IfSome (F.told files.old name.now) (λ all. bytes.old.items ≡
        take (vec_len bytes.old) all → bytes.new.items ≡ take (vec_len bytes.new) all)) }
    ensures end { IfOk result (λ n. IfSome (F.told files.old name.now) (λ all. n ≡ 0 →
        1 ≤ length piece.new → length all ≤ vec_len bytes.old)) }
{
    let at = bytes.len() as u64;
    let Ok(n) = files.read(name, at, piece) else {
        return Err(ReadError::Fault);
    };
    if bytes.extend_from_slice(&piece[..n]).is_err() {
        return Err(ReadError::NoMemory);
    }
    Ok(n)
}

/// Reads the whole file of that name, of at most `limit` bytes.
///
/// `TooBig` comes exactly where the file is longer and no read failed, `Fault` only where the count
/// of this name rose, and every other answer only where no count moved. No byte beyond `limit + 1`
/// is asked for.
pub fn read_all<F: Files>(
    alloc: Global,
    files: &mut F,
    name: &str,
    limit: usize,
) -> Result<Vec<u8>, ReadError>
    requires { limit ≤ 400_000_000 }
    ensures whole { IfOk result (λ v. IfSome (F.told files.old name.now) (λ all. v.items ≡ all)) }
    ensures limit { IfOk result (λ v. vec_len v ≤ limit) }
    ensures too_big { IsErrOf result ReadError.TooBig →
        IfSome (F.told files.old name.now) (λ all. limit < length all) }
    ensures cause { IsErrOf result ReadError.Fault →
        Rose (F.faults files.old name.now) (F.faults files.new name.now) }
    ensures counts_stay { (IsErrOf result ReadError.Fault → ⊥) →
        CountsStay (F.faults files.old) (F.faults files.new) }
    ensures known { F.known files.new ≡ F.known files.old }
    ensures keeps { Keeps (F.known files.old) (F.told files.old) (F.told files.new)
        (F.faults files.old) (F.faults files.new) name.now }
{
    let mut bytes = Vec::new(alloc);
    let mut buf = [0u8; 4096];
    while bytes.len() <= limit {
        let room = (limit + 1 - bytes.len()).min(4096);
        if read_piece(files, name, &mut buf[..room], &mut bytes)? == 0 {
            return Ok(bytes);
        }
    }
    Err(ReadError::TooBig)
}

/// Writes all the bytes, in as many calls as the sink asks for. After a `Fault` the sink has taken a
/// prefix of them, and its count rose.
#[tactic(auto, using(crate::proofs::Pieces::takes_on))]
pub fn write_all<K: Sink>(out: &mut K, bytes: &[u8]) -> Result<(), WriteError>
    ensures ok { OnOk result (TakesMore (K.taken out.old) (K.taken out.new) bytes.now) }
    ensures takes_prefix { OnErr result (TakesPrefix (K.taken out.old) (K.taken out.new) bytes.now) }
    ensures cause { OnErr result (Rose (K.faults out.old) (K.faults out.new)) }
    ensures later { K.faults out.old ≤ K.faults out.new }
{
    let mut done = 0;
    while done < bytes.len() {
        match out.write(&bytes[done..]) {
            Ok(n) => done += n,
            Err(_) => return Err(WriteError::Fault),
        }
    }
    Ok(())
}
