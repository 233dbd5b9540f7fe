// The type sheet that layouts are judged with.
use command_line::Asked;
use std::env::Env;
use std::fmt;
use std::io::Write;
use std::rt::Files;

// The numbers of a type sheet, and whether they were given.
#[derive(Drop)]
pub(crate) struct Sheet {
    pub(crate) numbers: [u16; 520],
    pub(crate) origin: Origin,
}

#[derive(Clone, Copy)]
pub(crate) enum Origin {
    Made,
    Given,
}

impl fmt::Display for Origin {
    fn fmt<W: fmt::Write>(&self, f: &mut fmt::Formatter<W>) -> fmt::Result {
        f.write_str(match self {
            Origin::Made => "a made one, not Databento's; --sheet FILE gives another",
            Origin::Given => "the given one",
        })
    }
}

// The sheet that is asked for, or the made one; none where it cannot be read, and why is then said.
pub(crate) fn load<R: Env + Files>(rt: &R, err: &mut impl Write, asked: Asked) -> Option<Sheet> {
    let mut numbers = type_sheet::made();
    if !command_line::load_sheet(rt, err, &crate::tell::NAME, asked, &mut numbers) {
        return None;
    }
    let origin = match asked.sheet {
        None => Origin::Made,
        Some(_) => Origin::Given,
    };
    Some(Sheet { numbers, origin })
}
