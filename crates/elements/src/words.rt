// Document 02, request 10: each element "in H and S gates", as document 01's codes, 4 for H and 5 for S. The word of e begins at 6 e; what is past its
// letters is 0.
pub const WORDS: [u8; 144] = [
    5, // of 0
    4, 5, 0, 0, 0, 4, // of 1
    5, 4, 0, 0, 0, 0, // of 2
    0, 0, 0, 0, 0, 4, // of 3
    5, 5, 4, 0, 0, 4, // of 4
    5, 4, 5, 5, 0, 5, // of 5
    4, 5, 5, 5, 0, 5, // of 6
    5, 0, 0, 0, 0, 4, // of 7
    5, 5, 4, 5, 5, 4, // of 8
    5, 4, 5, 0, 0, 5, // of 9
    4, 5, 5, 0, 0, 5, // of 10
    0, 0, 0, 0, 0, 4, // of 11
    5, 5, 4, 5, 0, 5, // of 12
    4, 0, 0, 0, 0, 4, // of 13
    5, 4, 5, 5, 5, 5, // of 14
    5, 5, 0, 0, 0, 5, // of 15
    4, 5, 5, 4, 0, 4, // of 16
    0, 0, 0, 0, 0, 4, // of 17
    5, 5, 0, 0, 0, 4, // of 18
    5, 0, 0, 0, 0, 4, // of 19
    5, 5, 5, 0, 0, 5, // of 20
    5, 4, 0, 0, 0, 5, // of 21
    5, 4, 5, 5, 0, 5, // of 22
    5, 4, 5, 0, 0, 4, // of 23
    5, 4, 5, 5, 4,
];

// How many letters each word has.
pub const LETTERS: [u8; 24] = [
    3, 3, 0, 4, 5, 5, 2, 6, 4, 4, 1, 5, 2, 6, 3, 5, 1, 3, 2, 4, 3, 5, 4, 6,
];
