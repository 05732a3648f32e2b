// The limits of a session, beside those of a book.

// The accepted backtracks (`max_backtracks`).
pub const MAX_BACKTRACKS: u32 = 1000000;
