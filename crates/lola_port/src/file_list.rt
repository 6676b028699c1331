ghost use Rattle.std.specs.Prelude.{◌≡◌, [], ◌∷◌, ◌++◌, OnOk, OnErr, find, position, option_copied, bytes_eq, string_bytes};
ghost use Rattle.lola_port.specs.Outside.{lookup, Stored};
ghost use Rattle.lola_port.specs.MemStore.{file_list};

use lola_bits::Memory;
use std::alloc::Global;

/// A name and the bytes that stand under it.
pub(crate) type File = (String, Vec<u8>);

/// The first file of a name.
fn find_file<'a>(files: &'a [File], name: &str) -> Option<&'a File>
    ensures { option_copied result ≡ find (λ file. bytes_eq (string_bytes file.0) name.now) files.now }
{
    files.iter().find(|file| file.0.as_str() == name)
}

/// The bytes under a name.
pub(crate) fn bytes_under<'a>(files: &'a [File], name: &str) -> Option<&'a [u8]>
    ensures { option_copied result ≡ lookup (file_list files.now) name.now }
{
    match find_file(files, name) {
        Some(file) => Some(file.1.as_slice()),
        None => None,
    }
}

/// The place of the first file of a name.
fn place_of(files: &[File], name: &str) -> Option<usize>
    ensures { result ≡ position (λ file. bytes_eq (string_bytes file.0) name.now) files.now }
{
    files.iter().position(|file| file.0.as_str() == name)
}

/// Lets bytes stand under a name: in the place of those of its first file, or else as a new file
/// behind the others.
pub(crate) fn put(
    files: &mut Vec<File>,
    alloc: Global,
    name: &str,
    bytes: &[u8],
) -> Result<(), Memory>
    ensures ok { OnOk result (Stored (file_list files.old.items) (file_list files.new.items) name.now bytes.now) }
    ensures err { OnErr result (files.new.items ≡ files.old.items) }
{
    let bytes = bytes.to_vec(alloc)?;
    match place_of(files.as_slice(), name) {
        Some(at) => {
            files[at].1 = bytes;
            Ok(())
        }
        None => {
            let text = String::from_str(alloc, name)?;
            push(files, (text, bytes))
        }
    }
}

/// Puts a file behind the others.
fn push(files: &mut Vec<File>, file: File) -> Result<(), Memory>
    ensures ok { OnOk result (files.new.items ≡ files.old.items ++ file ∷ []) }
    ensures err { OnErr result (files.new.items ≡ files.old.items) }
{
    match files.push(file) {
        Ok(()) => Ok(()),
        Err(_) => Err(Memory),
    }
}
