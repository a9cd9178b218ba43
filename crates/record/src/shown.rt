// What is shown of the air: who is on it, and what reports tell of it. Crate `air` works it out, and the bench keeps it.

#[repr(C)]
#[derive(Clone, Copy)]
pub struct Air {
    pub on: [bool; 8],
    // on the air at the top rank
    pub leads: [bool; 8],
    // the smallest seat that leads, 0 if none does; kept, as `ptt`: the record holds no enum
    pub id: u8,
    // the top type, 0 for off
    pub ptt: u8,
    pub ptts: bool,
}

impl Air {
    pub const NOBODY: Air = Air {
        on: [false; 8],
        leads: [false; 8],
        id: 0,
        ptt: 0,
        ptts: false,
    };
}
