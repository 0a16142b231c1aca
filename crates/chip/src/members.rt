// A member with its lines and columns at hand, for a loop over many data bytes.
ghost use Rattle.std.specs.Prelude.{◌≡◌};
ghost use Rattle.map.specs.Map.{lines_of, columns_of};

#[derive(Clone, Copy)]
pub(crate) struct Member {
    pub(crate) code: usize,
    pub(crate) lines: usize,
    pub(crate) columns: u32,
    ghost its_lines: { lines ≡ lines_of code },
    ghost its_columns: { columns ≡ columns_of code },
}

pub(crate) fn member_of(code: usize) -> Member
    ensures { result.code ≡ code }
{
    Member {
        code,
        lines: map::lines(code),
        columns: map::columns(code),
    }
}
