// A header with the lines and columns of its member at hand, for a scan over many addresses.
ghost use Rattle.std.specs.Prelude.{◌≡◌};
ghost use Rattle.map.specs.Map.{lines_of, columns_of};

use host::Header;

#[derive(Clone, Copy)]
pub(crate) struct Member {
    pub(crate) header: Header,
    pub(crate) lines: usize,
    pub(crate) columns: u32,
    ghost its_lines: { lines ≡ lines_of header.member },
    ghost its_columns: { columns ≡ columns_of header.member },
}

pub(crate) fn member_of(header: Header) -> Member
    ensures { result.header ≡ header }
{
    let code = header.member as usize;
    Member {
        header,
        lines: map::lines(code),
        columns: map::columns(code),
    }
}
