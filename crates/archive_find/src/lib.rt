// Document 01's shelf, once it is judged: the search.
#![tactic(auto)]

ghost use Rattle.std.specs.Prelude.{◌≡◌};
ghost use Rattle.definition.specs.Archive.{files_of, path_of, file_number};
ghost use Rattle.archive_find.specs.Finding.{find_in, sought_in};

use archive::{Archive, Member, lengths_at, member_at};
use include_paths::path_of;
use limits::FILE_NAME_BYTES;

// The file whose name is `path`, if there is one. Names are compared from their end on: what stands first is what rows near by share.
pub fn find(archive: Archive<'_>, path: &[u8]) -> Option<Member>
    ensures { result ≡ find_in archive.entry.bytes.now path.now }
{
    let bytes = archive.bytes;
    let count = archive.count();
    let mut at = lengths_at(count);
    'rows: for j in 0..count {
        let member = member_at(bytes, j, at);
        let start = member.start;
        at = member.end;
        if member.body - start != path.len() {
            continue 'rows;
        }
        'bytes: for i in (0..path.len()).rev() {
            if bytes[start + i] != path[i] {
                continue 'rows;
            }
        }
        return Some(member);
    }
    None
}

// The file that an include of `name` from `folder` finds, if there is one.
pub fn find_include<'a>(archive: Archive<'_>, folder: &'a [u8], name: &'a [u8]) -> Option<Member>
    ensures { result ≡ sought_in archive.entry.bytes.now (path_of folder.now name.now) }
{
    let mut path = [0; FILE_NAME_BYTES];
    let n = path_of(folder, name, &mut path)?;
    find(archive, &path[..n])
}

// The number of the file of that name, counted from 0, or the number of files.
// No Option: it is the definition's `file_number`, and `compare_without`, which strikes a file off, answers `None` at that number itself.
pub fn number_of(archive: Archive<'_>, name: &[u8]) -> usize
    ensures { result ≡ file_number name.now (files_of archive.entry.bytes.now) }
{
    match find(archive, name) {
        Some(member) => member.number,
        None => archive.count(),
    }
}
