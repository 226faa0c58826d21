//! What counts how much for the order of turns. All numbers but `GAIN_WEIGHT` were found by hill climbing: positions took the fewest
//! nodes with them.

/// What a seed counts that a turn brings to the store.
pub(super) const GAIN_WEIGHT: u32 = 64;

/// What the house of a turn adds to its priority: 8 times one more than what its place counts, and its number less 1. Places count 51, 43,
/// 36, 26, 25 and 0, from the store on. House `h` of `m` has cell `m + 5 * (h - 1) - 1`, for sides of up to 5 houses in the first row, and
/// for those of 6 in the second. A cell of no house counts 0.
pub(super) static PLACE_PRIORITIES: [[u16; 31]; 2] = [
    [
        416, 352, 296, 216, 208, 9, 417, 353, 297, 217, 10, 10, 418, 354, 298, 11, 11, 11, 419,
        355, 12, 12, 12, 12, 420, 13, 13, 13, 13, 13, 14,
    ],
    [
        8, 8, 8, 8, 8, 8, 8, 8, 8, 8, 209, 9, 9, 9, 9, 218, 10, 10, 10, 10, 299, 11, 11, 11, 11,
        356, 12, 12, 12, 12, 421,
    ],
];

/// What a house counts after a turn, by the number of its seeds modulo 16, as hardly any holds more. First come the houses of the player
/// who is to move then, and after them those of the one who has moved. Of each player the house farthest from the store comes first.
#[rattlefmt::skip]
pub(super) static HOUSE_WEIGHTS: [[u8; 16]; 12] = [
    [28, 1, 0, 6, 20, 52, 51, 123, 116, 116, 116, 116, 116, 116, 116, 116],
    [39, 5, 0, 13, 36, 28, 66, 101, 98, 98, 98, 98, 98, 98, 98, 98],
    [33, 0, 1, 15, 16, 52, 61, 77, 101, 75, 75, 75, 75, 75, 75, 75],
    [35, 13, 13, 0, 26, 31, 41, 54, 23, 17, 17, 17, 17, 17, 17, 17],
    [83, 37, 18, 37, 25, 36, 46, 50, 0, 0, 0, 0, 0, 0, 0, 0],
    [150, 33, 0, 17, 17, 26, 43, 53, 38, 36, 36, 36, 36, 36, 36, 36],
    [0, 20, 2, 26, 10, 43, 59, 52, 59, 67, 75, 83, 91, 99, 99, 99],
    [0, 26, 24, 27, 40, 64, 46, 54, 80, 80, 88, 96, 104, 112, 112, 112],
    [0, 17, 18, 26, 39, 43, 51, 52, 81, 81, 89, 97, 105, 113, 113, 113],
    [0, 16, 16, 35, 26, 36, 51, 55, 63, 71, 79, 87, 95, 103, 103, 103],
    [0, 13, 31, 18, 24, 41, 50, 62, 71, 77, 85, 93, 101, 109, 109, 109],
    [0, 29, 10, 22, 31, 40, 53, 73, 88, 96, 104, 112, 120, 128, 128, 128],
];
