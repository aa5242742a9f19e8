// The path that an include looks for, `parse_data_with_base_directory`'s join of folder and name, reduced as document 02 (iii) says.
#![tactic(auto)]

ghost use Rattle.std.specs.Prelude.{◌≡◌, length};
ghost use Rattle.definition.specs.Limits.{file_name_bytes};
ghost use Rattle.definition.specs.Archive.{split, joined, path_of};
ghost use Rattle.kept_parts.specs.Keeping.{did};
ghost use Rattle.include_paths.specs.Sought.{root, taken_parts, first_of, sought_bytes, sought_as, path_in, Within};

use kept_parts::{Kept, take_part};
use paths::part_len;

// The text whose parts come first: the folder, or the name if the folder is empty.
fn first_of<'a>(folder: &'a [u8], name: &'a [u8]) -> &'a [u8]
    ensures { result.now ≡ first_of folder.now name.now }
{
    if folder.len() == 0 {
        return name;
    }
    folder
}

// Takes the parts of folder and name joined, one after another: what is kept of the path, or `None` if there is none.
fn take_parts<'a>(folder: &'a [u8], name: &'a [u8], path: &mut [u8]) -> Option<Kept>
    requires { length path.old ≡ file_name_bytes }
    ensures { did result path.new ≡ taken_parts (split (joined folder.now name.now)) root path.old }
{
    let mut so_far = Kept {
        size: 0,
        over: 0,
        dots: false,
    };
    let mut in_name = folder.len() == 0;
    let mut rest = first_of(folder, name);
    // not by index: a turn takes a part and its slash, the folder's parts before the name's
    'parts: while rest.len() > 0 {
        let n = part_len(rest);
        so_far = take_part(&rest[..n], so_far, path)?;
        if n < rest.len() {
            rest = &rest[n + 1..];
            continue 'parts;
        }
        if in_name {
            return Some(so_far);
        }
        rest = name;
        in_name = true;
    }
    // what is left behind the last `/` is empty
    None
}

// The path that an include of `name` from `folder` looks for, in a buffer of 96 bytes: its length there, or `None` if there is no path.
pub fn path_of<'a>(folder: &'a [u8], name: &'a [u8], path: &mut [u8]) -> Option<usize>
    requires { length path.old ≡ file_name_bytes }
    ensures { (result ≡ sought_as (path_of folder.now name.now)) × (path_in result path.new ≡ path_of folder.now name.now) × Within result × (path.new ≡ sought_bytes folder.now name.now path.old) }
{
    let end = take_parts(folder, name, path)?;
    if end.dots {
        return None;
    }
    if end.over > 0 {
        return None;
    }
    Some(end.size)
}
