// The use code's three tables. Each is its rule, computed once over all codes. Each has a function:
// one over any table would have a contract with the table and its rule in it, and no caller is shorter by that.
ghost use Rattle.std.specs.Prelude.{◌≡◌, ◌/◌, ◌%◌, ◌<◌};
ghost use Rattle.order.specs.Order.{used_of, earliest_of, is_order};

// The code that follows code c once line n is used, at 4 x c + n.
const NEXT: [u8; 256] = [
    0, 1, 6, 56, 0, 1, 7, 57, 0, 3, 6, 58, 0, 3, 7, 59, 4, 1, 6, 60, 4, 1, 7, 61, 4, 3, 6, 62, 4,
    3, 7, 63, 0, 9, 14, 56, 0, 9, 15, 57, 0, 11, 14, 58, 0, 11, 15, 59, 4, 9, 14, 60, 4, 9, 15, 61,
    4, 11, 14, 62, 4, 11, 15, 63, 16, 1, 22, 56, 16, 1, 23, 57, 16, 3, 22, 58, 16, 3, 23, 59, 20,
    1, 22, 60, 20, 1, 23, 61, 20, 3, 22, 62, 20, 3, 23, 63, 16, 9, 30, 56, 16, 9, 31, 57, 16, 11,
    30, 58, 16, 11, 31, 59, 20, 9, 30, 60, 20, 9, 31, 61, 20, 11, 30, 62, 20, 11, 31, 63, 32, 33,
    6, 56, 32, 33, 7, 57, 32, 35, 6, 58, 32, 35, 7, 59, 36, 33, 6, 60, 36, 33, 7, 61, 36, 35, 6,
    62, 36, 35, 7, 63, 32, 41, 14, 56, 32, 41, 15, 57, 32, 43, 14, 58, 32, 43, 15, 59, 36, 41, 14,
    60, 36, 41, 15, 61, 36, 43, 14, 62, 36, 43, 15, 63, 48, 33, 22, 56, 48, 33, 23, 57, 48, 35, 22,
    58, 48, 35, 23, 59, 52, 33, 22, 60, 52, 33, 23, 61, 52, 35, 22, 62, 52, 35, 23, 63, 48, 41, 30,
    56, 48, 41, 31, 57, 48, 43, 30, 58, 48, 43, 31, 59, 52, 41, 30, 60, 52, 41, 31, 61, 52, 43, 30,
    62, 52, 43, 31, 63,
];

// The line that code c has earlier than all others, else 0.
const EARLIEST: [u8; 64] = [
    3, 3, 3, 3, 3, 3, 3, 3, 0, 0, 0, 0, 0, 0, 0, 0, 0, 0, 0, 0, 1, 0, 1, 0, 0, 0, 0, 0, 1, 0, 1, 0,
    2, 2, 0, 0, 0, 0, 0, 0, 2, 2, 0, 0, 0, 0, 0, 0, 2, 2, 0, 0, 1, 0, 1, 0, 2, 2, 0, 0, 1, 0, 1, 0,
];

// Is code c an order of the four lines?
const ORDERS: [bool; 64] = [
    true, true, false, true, true, false, true, true, false, false, false, true, false, false,
    false, true, false, false, false, false, true, false, true, false, false, false, false, false,
    false, false, true, true, true, true, false, false, false, false, false, false, false, true,
    false, true, false, false, false, false, true, false, false, false, true, false, false, false,
    true, true, false, true, true, false, true, true,
];

pub fn next(at: usize) -> u8
    requires { at < 256 }
    ensures { result ≡ used_of (at / 4) (at % 4) }
{
    NEXT[at]
}

pub fn earliest(code: usize) -> u8
    requires { code < 64 }
    ensures { result ≡ earliest_of code }
{
    EARLIEST[code]
}

pub fn is_order(code: usize) -> bool
    requires { code < 64 }
    ensures { result ≡ is_order code }
{
    ORDERS[code]
}
