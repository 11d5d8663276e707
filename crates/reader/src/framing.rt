// A file with its header, where that and the length are right: what opening, looking up and showing go on with.
ghost use Rattle.std.specs.Prelude.{◌≡◌, IfOk, IfErr, Ok, Err};
ghost use Rattle.directory.specs.Calls.{header_of};

use crate::heading::header;
use directory::Refused;
use records::standing::Directory;

// The file with its n, r and v, or the header's refusal.
pub(crate) fn framed(file: &[u8]) -> Result<Directory, Refused>
    ensures ok { IfOk result (λ d. (d.file ≡ file.entry) × (header_of file.now ≡ Ok d.header)) }
    ensures err { IfErr result (λ why. header_of file.now ≡ Err why) }
{
    let header = header(file)?;
    Ok(Directory { file, header })
}
