// The numbers a call gives back (document 01, "The numbers a call gives back"; W-207, W-209, W-210, W-214).
pub const DONE: u32 = 0;

pub const SHORT: u32 = 1;

pub const TYPE: u32 = 2;

pub const LENGTH: u32 = 3;

pub const WIDTH: u32 = 4;

pub const KEY: u32 = 5;

pub const TUNNEL: u32 = 6;

pub const IDENT: u32 = 7;

pub const LONG: u32 = 8;

pub const LABEL: u32 = 9;

pub const FAMILY: u32 = 10;

pub const TABLE: u32 = 11;

pub const KIND: u32 = 12;

pub const ROOM: u32 = 13;

pub const ABSENT: u32 = 14;

pub const FLOW: u32 = 15;

pub const SPACE: u32 = 16;

pub const DEEP: u32 = 17;

pub const RANGE: u32 = 18;

pub const GROUP: u32 = 19;

pub const CONFLICT: u32 = 20;
