// The kinds of rows, as document 01 lists them: entries, then details. Numbers, for a lent row may hold any: an enum
// would stand beside these, and not in their place.
pub const BLANK: usize = 1;

pub const OPTION: usize = 2;

pub const INCLUDE: usize = 3;

pub const PUSHTAG: usize = 4;

pub const POPTAG: usize = 5;

pub const TRANSACTION: usize = 6;

pub const PRICE: usize = 7;

pub const BALANCE: usize = 8;

pub const OPEN: usize = 9;

pub const CLOSE: usize = 10;

pub const PAD: usize = 11;

pub const COMMODITY: usize = 12;

pub const EVENT: usize = 13;

// Kinds from here on are details.
pub const FIRST_DETAIL: usize = 20;

pub const FLAG: usize = 20;

pub const PAYEE: usize = 21;

pub const NARRATION: usize = 22;

pub const TAG: usize = 23;

pub const LINK: usize = 24;

pub const ACCOUNT: usize = 25;

pub const AMOUNT: usize = 26;

pub const TOLERANCE: usize = 27;

pub const COST: usize = 28;

pub const UNIT_PRICE: usize = 29;

pub const TOTAL_PRICE: usize = 30;

pub const CURRENCY: usize = 31;

pub const BOOKING: usize = 32;

pub const POSTING: usize = 33;

pub const STRING: usize = 34;

pub const STRING_META: usize = 35;

pub const NUMBER_META: usize = 36;

pub const CURRENCY_META: usize = 37;

// A block that recovering reading refuses.
pub const REFUSAL: usize = 90;
