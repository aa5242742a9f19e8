// What an include looks for and finds, and which files are reached through includes.
#![tactic(auto)]

ghost use Rattle.std.specs.Prelude.{◌≡◌, ◌≤◌, ◌<◌, length, IfSome};
ghost use Rattle.definition.specs.Limits.{archive_bytes, archive_files, file_name_bytes};
ghost use Rattle.include_lines.specs.Includes.{includes_of};
ghost use Rattle.missing.specs.Looking.{Looks};
ghost use Rattle.missing.specs.Reaching.{none_reached, reaching, reaching_all, Waiting, Within, member_at, file_at};

use archive::{Archive, Member};
use archive_find::find;
use byte_classes::Classes;
use include_lines::next_include;
use include_paths::path_of;
use limits::{ARCHIVE_FILES, FILE_NAME_BYTES};

// What an include finds: three cases, of which two have a value, so no Option or Result says it as plainly.
#[derive(Clone, Copy)]
pub enum Look {
    // This file.
    File(Member),
    // No file: none has its path, of so many bytes.
    Absent(usize),
    // No file: it has no path.
    Nowhere,
}

// What an include of `name` from `folder` finds. Its path stands in a buffer of 96 bytes.
pub fn look_for<'a>(archive: Archive<'_>, folder: &'a [u8], name: &'a [u8], path: &mut [u8]) -> Look
    requires { length path.old ≡ file_name_bytes }
    ensures { Looks archive.entry.bytes.now folder.now name.now path.old path.new result }
{
    let Some(n) = path_of(folder, name, path) else {
        return Look::Nowhere;
    };
    match find(archive, &path[..n]) {
        Some(member) => Look::File(member),
        None => Look::Absent(n),
    }
}

// No heap, so the room is fixed and a count stands beside it.
// The files reached so far, in their order: the first `count` of `files`; of each file, by its number, whether it is among them: any number but
// zero says so, as what docs/TRACE.md names may not ask for less numbers than it did.
#[derive(Clone, Copy)]
pub struct Reached {
    pub files: [Member; ARCHIVE_FILES],
    pub seen: [u8; ARCHIVE_FILES],
    pub count: usize,
}

// None is reached. By hand: a derive asks a file that is none of `Member`, and this says that they are the definition's.
impl Default for Reached {
    ghost is_default = { λ reached. reached ≡ none_reached };

    fn default() -> Reached {
        let none = Member {
            number: 0,
            start: 0,
            body: 0,
            end: 0,
        };
        Reached {
            files: [none; ARCHIVE_FILES],
            seen: [0; ARCHIVE_FILES],
            count: 0,
        }
    }
}

// Adds a file, if it is not among them. An archive has no more files than there is room for.
pub fn reach(reached: Reached, member: Member) -> Reached
    ensures { result ≡ reaching reached member }
{
    let number = member.number;
    let count = reached.count;
    if number >= ARCHIVE_FILES {
        return reached;
    }
    if count >= ARCHIVE_FILES {
        return reached;
    }
    if reached.seen[number] != 0 {
        return reached;
    }
    let mut more = reached;
    more.files[count] = member;
    more.seen[number] = 1;
    more.count = count + 1;
    more
}

// The includes of texts walked through: the archive that they look in, and the files of it that they reach, which stand there.
#[derive(Drop)]
pub struct Search<'a> {
    archive: Archive<'a>,
    reached: Reached,
    ghost waiting: { Waiting (length archive.bytes.now) reached },
}

impl<'a> Search<'a> {
    // No text is walked through yet.
    pub fn new(archive: Archive<'a>) -> Search<'a>
        ensures { (result.archive ≡ archive.entry) × (result.reached ≡ none_reached) }
    {
        Search {
            archive,
            reached: Reached::default(),
        }
    }

    // How many files are reached.
    pub fn count(&self) -> usize
        ensures { (result ≡ self.now.reached.count) × (result ≤ archive_files) }
    {
        self.reached.count
    }

    // A file that is reached.
    fn file(&self, i: usize) -> Member
        requires { i < self.now.reached.count }
        ensures { (result ≡ member_at self.now.reached i) × Within (length self.now.archive.bytes.now) result × (length self.now.archive.bytes.now ≤ archive_bytes) }
    {
        self.reached.files[i]
    }

    // The name of a file that is reached.
    pub fn name(&self, i: usize) -> &'a [u8]
        requires { i < self.now.reached.count }
        ensures { (result.now ≡ (file_at self.now.archive.bytes.now self.now.reached i).name) × (length result.now ≤ archive_bytes) }
    {
        let file = self.file(i);
        &self.archive.bytes[file.start..file.body]
    }

    // Its body.
    pub fn body(&self, i: usize) -> &'a [u8]
        requires { i < self.now.reached.count }
        ensures { (result.now ≡ (file_at self.now.archive.bytes.now self.now.reached i).body) × (length result.now ≤ archive_bytes) }
    {
        let file = self.file(i);
        &self.archive.bytes[file.body..file.end]
    }

    // Walks through the includes of a text in `folder`: adds each file that they find. Of an include that finds none `tell` is told its
    // name, and the path that no file has, if it has one.
    pub fn walk<F: Fn(&[u8], Option<&[u8]>)>(&mut self, text: &[u8], folder: &[u8], tell: F)
        requires { (name : _) (path : _) → length name.now ≤ length text.now → IfSome path (λ p. length p.now ≤ file_name_bytes) → F.pre tell name path }
        ensures { (self.new.archive ≡ self.old.archive) × (self.new.reached ≡ reaching_all self.old.archive.bytes.now folder.now self.old.reached (includes_of text.now)) }
    {
        let classes = Classes::new();
        let mut from = 0;
        // not by index: a turn takes an include and the lines before it
        while let Some(include) = next_include(&classes, text, from) {
            let start = include.start;
            let name = &text[start..start + include.size];
            let mut path = [0; FILE_NAME_BYTES];
            match look_for(self.archive, folder, name, &mut path) {
                Look::File(member) => self.reached = reach(self.reached, member),
                Look::Absent(n) => tell(name, Some(&path[..n])),
                Look::Nowhere => tell(name, None),
            }
            from = include.end;
        }
    }
}
