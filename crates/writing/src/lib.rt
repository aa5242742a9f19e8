// What getres writes beside answers: what went wrong, its help and its status.
#![tactic(auto)]

use io::write_all;
use reports::Status;
use std::io::{Error, Print};

// Says why the system refuses what.
pub fn fail(rt: &HostRuntime, what: &[u8], error: Error) {
    let _ = rt.stderr().write_all(b"getres: ");
    input::fail(rt, what, error);
}

pub fn complain(rt: &HostRuntime, what: &[u8], why: &[u8]) {
    let err = rt.stderr();
    let _ = err.write_all(b"getres: ");
    let _ = err.write_all(what);
    let _ = err.write_all(b": ");
    let _ = err.write_all(why);
    let _ = err.write_all(b"\n");
}

pub fn write_help(out: &impl Print) {
    let _ = out.write_all(
        b"usage: getres [OPTION].. [--without NAME] [--] TEXT NAME [CLASS]\n\
        \x20      getres [OPTION].. [--without NAME] CHAIN.. [--] NAME [CLASS]\n\
        \x20      getres [OPTION].. --list [--] TEXT NAME [CLASS]\n\
        \x20      getres [OPTION].. --list CHAIN.. [--] NAME [CLASS]\n\
        \x20      getres [OPTION].. --write [--] TEXT\n\
        \x20      getres [OPTION].. --write CHAIN..\n\
        \n\
        Prints the value that the X resources of the file TEXT give to a name and a class; or those of a\n\
        start-up chain, with a line for each of its two steps that says which text is used.\n\
        With --list prints every resource that aligns with them, and not only the one whose value counts.\n\
        With --write prints all these resources, those of included files among them, as one resource text.\n\
        A TEXT, or a PATH of a chain, of - is standard input.\n\
        An OPTION is --file, as often as there are files, --depth, --missing, --shared or --status-fd.\n\
        \n\
        \x20 --file [NAME=]PATH  a file that includes find by NAME, or else by PATH as it is written\n\
        \x20 --without NAME      two answers, with that file and without it, and whether they differ\n\
        \x20 --missing           says on standard error which includes found no file, and what they looked for\n\
        \x20 --shared            says on standard error which keys come through two files that TEXT includes\n\
        \x20 --list              a line for each resource that aligns: number, file, key and value\n\
        \x20 --write             the resources themselves, as a text that gives every query the same answer\n\
        \x20 --depth N           reads includes up to depth N, 0 to 100; without it 20, in a chain 100\n\
        \x20 --status-fd N       writes the status to descriptor N, 3 to 9\n\
        \x20 --help              prints this\n\
        \n\
        These ask for a chain. A text that is not named, or that cannot be read, is one that could not be read.\n\
        \n\
        \x20 --default             a chain, whatever else is named\n\
        \x20 --property PATH       the property RESOURCE_MANAGER; without it the property is empty\n\
        \x20 --property-format N   its format, 8, 16 or 32; without it 8\n\
        \x20 --xresources PATH     .Xresources\n\
        \x20 --xdefaults PATH      .Xdefaults\n\
        \x20 --xenvironment PATH   what XENVIRONMENT names; without it XENVIRONMENT is not set\n\
        \x20 --host PATH           the .Xdefaults of the host\n\
        \n\
        Status: 0 a value, or with --list a resource, 1 none; with --without 0 equal, 1 different; with --write 0;\n\
        2 refused, or an error.\n",
    );
}

pub fn write_status(fd: i32, status: Status) {
    match status {
        Status::Yes => write_all(fd, b"0"),
        Status::No => write_all(fd, b"1"),
        Status::Trouble => write_all(fd, b"2"),
    };
}
