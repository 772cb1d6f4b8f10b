// Written by tools/row_words.py.

/// A row in each part: update_every, store_first, its moment, and what it shows; then a line for each
/// value: its algorithm, the value, anomalous, the multiplier, the divisor, hidden, noreset, the moment
/// and the value of its last row, and the word in hexadecimal digits. A `-` is none.
pub const TABLE: &str = "1 no 60 a value as it is
absolute 42 no 1 1 no no - - 29401640

1 no 60 values below 0
absolute -42 no 1 1 no no - - a9401640
absolute -1 no 3 2 no no - - b9e4e1c0

1 no 60 multiplied before it is divided
absolute 7 no 10 4 no no - - 291ab3f0
absolute 1 no 1 3 no no - - 3932dcd5

1 no 60 a factor below 0
absolute 5 no -3 1 no no - - b1e4e1c0
absolute -5 no -3 1 no no - - 31e4e1c0

1 no 60 a divisor below 0
absolute 5 no 1 -2 no no - - b12625a0
absolute -5 no 1 -2 no no - - 312625a0
absolute 5 no -1 -2 no no - - 312625a0

1 no 60 a divisor of 0 counts as 1
absolute 5 no 1 0 no no - - 314c4b40
incremental 9 no 1 0 no no 58 3 312dc6c0

1 no 60 a factor of 0
absolute 5 no 0 1 no no - - 01000000
incremental 9 no 0 1 no no 58 3 01000000

1 no 60 the limits of values
absolute 9223372036854775807 no 1 1 no no - - 758cbccc
absolute -9223372036854775808 no 1 1 no no - - f58cbccc
absolute 0 no 1 1 no no - - 01000000

1 no 60 the limits of factors
absolute 9223372036854775807 no 2147483647 1 no no - - 7dffffff
absolute -9223372036854775808 no 2147483647 1 no no - - fdffffff
absolute -9223372036854775808 no -2147483647 2147483647 no no - - 758cbccc
absolute 1 no 1 2147483647 no no - - 01000000

1 no 60 ties to the even mantissa
absolute 5 no 1 100000000 no no - - 01000000
absolute 15 no 1 100000000 no no - - 39000002

1 no 60 marked values
absolute 42 yes 1 1 no no - - 28401640
absolute 0 yes 1 1 no no - - 04000000

1 no 60 a last value does not matter to a value as it is
absolute 42 no 1 1 no no 59 50 29401640

1 no 60 a rise in a second
incremental 160 no 1 1 no no 59 100 295b8d80

1 no 60 a rise over a gap of three seconds
incremental 160 no 1 1 no no 57 100 291e8480

5 no 60 a rise over the grid's five seconds
incremental 160 no 1 1 no no 55 100 31b71b00

1 no 4294967295 a rise over the longest gap
incremental 9223372036854775807 no 1 1 no no 0 -9223372036854775808 59418937
incremental 9223372036854775807 no 2147483647 1 no no 0 -9223372036854775808 758cbccc
incremental 9223372036854775807 no 1 -2147483647 no no 0 -9223372036854775808 b11e8480

1 no 60 the greatest rise
incremental 9223372036854775807 no 1 1 no no 59 -9223372036854775808 7d02d093
incremental 9223372036854775807 no -2147483647 1 no no 59 -9223372036854775808 fdffffff

1 no 60 the greatest fall
incremental -9223372036854775808 no 1 1 no no 59 9223372036854775807 03000000
incremental -9223372036854775808 no 1 1 no yes 59 9223372036854775807 01000000

1 no 60 a reset
incremental 10 no 1 1 no no 59 160 03000000

1 no 60 a fall that is no reset
incremental 10 no 1 1 no yes 59 160 01000000

1 no 60 a marked reset
incremental 10 yes 1 1 no no 59 160 02000000
incremental 10 yes 1 1 no yes 59 160 04000000

1 no 60 no rise
incremental 160 no 1 1 no no 59 160 01000000
incremental 160 yes 1 1 no no 59 160 04000000

1 no 60 a rise from below 0
incremental -10 no 1 1 no no 58 -30 31989680
incremental 10 no 1 1 no no 58 -30 291e8480

1 no 60 a rise by factors
incremental 160 no 8 1000 no no 57 100 39186a00
incremental 160 no 8 -1000 no no 57 100 b9186a00

1 no 60 a first value
incremental 160 no 1 1 no no - - -
percentage-of-incremental-row 160 no 1 1 no no - - -

1 yes 60 a first value that is stored
incremental 160 no 1 1 no no - - 29f42400

5 yes 60 a first value that is stored, on a grid of five
incremental 160 no 1 1 no no - - 2930d400

0 yes 60 a first value that is stored, on a grid of 0
incremental 160 no 1 1 no no - - 29f42400

1 yes 60 a first value below 0 that is stored
incremental -160 no 1 1 no no - - 03000000
incremental -160 no 1 1 no yes - - 01000000

10 yes 60 first values that are stored, in percent
percentage-of-incremental-row 30 no 1 1 no no - - 292625a0
percentage-of-incremental-row 90 no 1 1 no no - - 297270e0

10 yes 60 a last row where the first is stored
incremental 160 no 1 1 no no 57 100 291e8480

1 no 60 a last row at the moment
incremental 160 no 1 1 no no 60 100 -
percentage-of-incremental-row 160 no 1 1 no no 60 100 -

1 no 60 a last row after the moment
incremental 160 no 1 1 no no 61 100 -
percentage-of-incremental-row 160 no 1 1 no no 4294967295 100 -

5 yes 60 a last row at the moment, where the first is stored
incremental 160 no 1 1 no no 60 100 2930d400
incremental 160 no 1 1 no no 61 200 2930d400

5 no 60 a last row one second before
incremental 160 no 1 1 no no 59 100 295b8d80

1 no 1 the first moment
incremental 160 no 1 1 no no 0 100 295b8d80
incremental 160 no 1 1 no no 1 100 -

1 no 60 shares of two
percentage-of-absolute-row 1 no 1 1 no no - - 2932dcd5
percentage-of-absolute-row 2 no 1 1 no no - - 2965b9ab

1 no 60 shares of 0
percentage-of-absolute-row 0 no 1 1 no no - - 01000000
percentage-of-absolute-row 0 no 1 1 no no - - 01000000

1 no 60 shares of a sum of 0
percentage-of-absolute-row 5 no 1 1 no no - - 01000000
percentage-of-absolute-row -5 no 1 1 no no - - 01000000

1 no 60 shares with a part below 0
percentage-of-absolute-row -1 no 1 1 no no - - a94c4b40
percentage-of-absolute-row 3 no 1 1 no no - - 29e4e1c0

1 no 60 shares of a sum below 0
percentage-of-absolute-row -1 no 1 1 no no - - 294c4b40
percentage-of-absolute-row -3 no 1 1 no no - - 29e4e1c0
percentage-of-absolute-row 2 no 1 1 no no - - a9989680

1 no 60 shares take no factors
percentage-of-absolute-row 1 no 7 3 no no - - 2932dcd5
percentage-of-absolute-row 2 no -5 0 no no - - 2965b9ab

1 no 60 a hidden value counts in the sum
percentage-of-absolute-row 1 no 1 1 no no - - 292625a0
percentage-of-absolute-row 1 no 1 1 no no - - 292625a0
percentage-of-absolute-row 2 no 1 1 yes no - - 294c4b40

1 no 60 a hidden value alone
percentage-of-absolute-row 9 no 1 1 yes no - - 294c4b40
absolute 9 no 1 1 yes no - - 31895440

1 no 60 shares of great values
percentage-of-absolute-row 9223372036854775807 no 1 1 no no - - 294c4b40
percentage-of-absolute-row 9223372036854775807 no 1 1 no no - - 294c4b40
percentage-of-absolute-row -9223372036854775808 no 1 1 no no - - a94c4b40
percentage-of-absolute-row 9223372036854775807 no 1 1 no no - - 294c4b40

1 no 60 shares of rises
percentage-of-incremental-row 110 no 1 1 no no 59 100 292625a0
percentage-of-incremental-row 130 no 1 1 no no 59 100 297270e0

1 no 60 shares of rises over unlike gaps
percentage-of-incremental-row 110 no 1 1 no no 59 100 292625a0
percentage-of-incremental-row 130 no 1 1 no no 50 100 297270e0

1 no 60 shares of no rise
percentage-of-incremental-row 100 no 1 1 no no 59 100 01000000
percentage-of-incremental-row 90 no 1 1 no no 59 100 03000000
percentage-of-incremental-row 90 no 1 1 no yes 59 100 01000000

1 no 60 shares of rises with a reset
percentage-of-incremental-row 10 no 1 1 no no 59 100 03000000
percentage-of-incremental-row 130 no 1 1 no no 59 100 29989680

1 no 60 shares of rises with a first value
percentage-of-incremental-row 1000 no 1 1 no no - - -
percentage-of-incremental-row 110 no 1 1 no no 59 100 292625a0
percentage-of-incremental-row 130 no 1 1 no no 59 100 297270e0

1 no 60 shares of rises take no factors
percentage-of-incremental-row 110 no 7 1 no no 59 100 292625a0
percentage-of-incremental-row 130 no 1 -3 no no 59 100 297270e0

1 no 60 the greatest rises in percent
percentage-of-incremental-row 9223372036854775807 no 1 1 no no 59 -9223372036854775808 294c4b40
percentage-of-incremental-row 9223372036854775807 no 1 1 no no 59 -9223372036854775808 294c4b40
percentage-of-incremental-row 0 no 1 1 no no 59 -1 01000000

1 no 60 a hidden rise counts in the sum
percentage-of-incremental-row 110 no 1 1 no no 59 100 292625a0
percentage-of-incremental-row 130 no 1 1 yes no 59 100 297270e0

2 no 60 all algorithms in one row
absolute 10 no 2 3 no no - - 3165b9ab
incremental 30 no 1 1 no no 56 10 314c4b40
percentage-of-absolute-row 20 no 1 1 no no - - 31fe502b
percentage-of-incremental-row 60 yes 1 1 no no 58 40 284c4b40

2 yes 60 all algorithms in one row whose first is stored
absolute 10 no 1 1 no no - - 31989680
incremental 30 no 1 1 no no - - 31e4e1c0
percentage-of-absolute-row 20 no 1 1 no no - - 31fe502b
percentage-of-incremental-row 60 no 1 1 no no - - 294c4b40

1 no 60 a row of no values";
