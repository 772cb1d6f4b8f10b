// Written by tools/convert_texts.py.

use host_model::Status;

/// What a text that is read to its end shows, the text, and what is told of it.
pub static READ: [(&str, &str, &str); 50] = [
    (
        "one point",
        "CHART test.one '' 'One' 'units'\nDIMENSION a\nBEGIN test.one\nSET a = 42\nEND\nMOMENT 60\n",
        "60 test.one a 42\n",
    ),
    ("no text", "", ""),
    (
        "carriage returns are blanks",
        "CHART a.b n t u\r\nDIMENSION c\r\nBEGIN a.b\r\nSET c = 1\r\nEND\r\nMOMENT 2\r\n",
        "2 a.b c 1\n",
    ),
    (
        "a beat's points by the numbers of their series",
        "CHART a.b n t u\nDIMENSION c\nDIMENSION d\nBEGIN a.b\nSET d = 2\nSET c = 1\nEND\nMOMENT 9\n",
        "9 a.b c 1\n9 a.b d 2\n",
    ),
    (
        "a dimension that is not set",
        "CHART a.b n t u\nDIMENSION c\nDIMENSION d\nBEGIN a.b\nSET d = 2\nEND\nMOMENT 9\n",
        "9 a.b d 2\n",
    ),
    (
        "the last value counts",
        "CHART a.b n t u\nDIMENSION c\nBEGIN a.b\nSET c = 1\nSET c = -5\nEND\nMOMENT 9\n",
        "9 a.b c -5\n",
    ),
    (
        "a value taken back",
        "CHART a.b n t u\nDIMENSION c\nDIMENSION d\nBEGIN a.b\nSET c = 1\nSET d = 2\nSET c =\nEND\nMOMENT 9\n",
        "9 a.b d 2\n",
    ),
    (
        "no value outlives its beat",
        "CHART a.b n t u\nDIMENSION c\nBEGIN a.b\nSET c = 1\nEND\nMOMENT 9\nBEGIN a.b\nEND\nMOMENT 10\nMOMENT 12\nBEGIN a.b\nSET c = 3\nEND\nMOMENT 13\n",
        "9 a.b c 1\n13 a.b c 3\n",
    ),
    ("an empty beat", "MOMENT 1\nMOMENT 2\n", ""),
    (
        "decimals are dropped",
        "CHART a.b n t u\nDIMENSION c\nBEGIN a.b\nSET c=1500.7\nEND\nMOMENT 1\nBEGIN a.b\nSET c = -0.9\nEND\nMOMENT 2\n",
        "1 a.b c 1500\n2 a.b c 0\n",
    ),
    (
        "a rise and a reset",
        "CHART a.b n t u\nDIMENSION a a incremental\nBEGIN a.b\nSET a = 100\nEND\nMOMENT 1\nBEGIN a.b\nSET a = 160\nEND\nMOMENT 2\nBEGIN a.b\nSET a = 10\nEND\nMOMENT 3\n",
        "2 a.b a 60\n3 a.b a 0 R\n",
    ),
    (
        "a rise over a gap between rows",
        "CHART a.b n t u\nDIMENSION a a incremental\nBEGIN a.b\nSET a = 100\nEND\nMOMENT 1\nMOMENT 3\nBEGIN a.b\nSET a = 160\nEND\nMOMENT 4\n",
        "4 a.b a 20\n",
    ),
    (
        "a rise from the last row that sets the dimension",
        "CHART a.b n t u\nDIMENSION a a incremental\nDIMENSION b\nBEGIN a.b\nSET a = 100\nSET b = 1\nEND\nMOMENT 1\nBEGIN a.b\nSET b = 2\nEND\nMOMENT 2\nBEGIN a.b\nSET a = 160\nSET b = 3\nEND\nMOMENT 4\n",
        "1 a.b b 1\n2 a.b b 2\n4 a.b a 20\n4 a.b b 3\n",
    ),
    (
        "a rise by factors",
        "CHART a.b n t u\nDIMENSION a a incremental 8 1000\nBEGIN a.b\nSET a = 0\nEND\nMOMENT 10\nBEGIN a.b\nSET a = 1000\nEND\nMOMENT 13\n",
        "13 a.b a 2.666667\n",
    ),
    (
        "a fall that is no reset",
        "CHART a.b n t u\nDIMENSION a a incremental 1 1 noreset\nBEGIN a.b\nSET a = 5\nEND\nMOMENT 1\nBEGIN a.b\nSET a = 3\nEND\nMOMENT 2\n",
        "2 a.b a 0\n",
    ),
    (
        "a marked reset",
        "CHART a.b n t u\nDIMENSION a a incremental\nBEGIN a.b\nSET a = 5\nEND\nMOMENT 1\nBEGIN a.b\nSET a = 3 A\nEND\nMOMENT 2\nBEGIN a.b\nSET a = 3 A\nEND\nMOMENT 3\n",
        "2 a.b a 0 A R\n3 a.b a 0 A\n",
    ),
    (
        "a first value that is stored",
        "CHART a.b n t u f c line 1 5 'store_first'\nDIMENSION a a incremental\nBEGIN a.b\nSET a = 50\nEND\nMOMENT 10\nBEGIN a.b\nSET a = 70\nEND\nMOMENT 20\n",
        "10 a.b a 10\n20 a.b a 2\n",
    ),
    (
        "first values that are stored, in percent",
        "CHART a.b n t u f c line 1 1 'x,store_first'\nDIMENSION a a percentage-of-incremental-row\nDIMENSION b b percentage-of-incremental-row\nBEGIN a.b\nSET a = 1\nSET b = 3\nEND\nMOMENT 10\n",
        "10 a.b a 25\n10 a.b b 75\n",
    ),
    (
        "shares of a row, and of 0",
        "CHART a.b n t u\nDIMENSION a a percentage-of-absolute-row\nDIMENSION b b percentage-of-absolute-row\nBEGIN a.b\nSET a = 1\nSET b = 2\nEND\nMOMENT 1\nBEGIN a.b\nSET a = 0\nSET b = 0\nEND\nMOMENT 2\n",
        "1 a.b a 33.33333\n1 a.b b 66.66667\n2 a.b a 0\n2 a.b b 0\n",
    ),
    (
        "shares with a part below 0",
        "CHART a.b n t u\nDIMENSION a a percentage-of-absolute-row\nDIMENSION b b percentage-of-absolute-row\nBEGIN a.b\nSET a = -1\nSET b = 3\nEND\nMOMENT 1\nBEGIN a.b\nSET a = 5\nSET b = -5\nEND\nMOMENT 2\n",
        "1 a.b a -50\n1 a.b b 150\n2 a.b a 0\n2 a.b b 0\n",
    ),
    (
        "shares take the whole row, hidden or not",
        "CHART a.b n t u\nDIMENSION a a percentage-of-absolute-row\nDIMENSION b '' absolute 1 1 hidden\nDIMENSION c\nBEGIN a.b\nSET a = 1\nSET b = 2\nSET c = 1\nEND\nMOMENT 1\n",
        "1 a.b a 25\n1 a.b b 2\n1 a.b c 1\n",
    ),
    (
        "shares of those that are set",
        "CHART a.b n t u\nDIMENSION a a percentage-of-absolute-row\nDIMENSION b\nBEGIN a.b\nSET a = 1\nEND\nMOMENT 1\n",
        "1 a.b a 100\n",
    ),
    (
        "shares of rises",
        "CHART a.b n t u\nDIMENSION a a percentage-of-incremental-row\nDIMENSION b b percentage-of-incremental-row\nBEGIN a.b\nSET a = 0\nSET b = 0\nEND\nMOMENT 1\nBEGIN a.b\nSET a = 10\nSET b = 30\nEND\nMOMENT 5\nBEGIN a.b\nSET a = 5\nSET b = 31\nEND\nMOMENT 6\n",
        "5 a.b a 25\n5 a.b b 75\n6 a.b a 0 R\n6 a.b b 100\n",
    ),
    (
        "shares of no rise",
        "CHART a.b n t u\nDIMENSION a a percentage-of-incremental-row\nDIMENSION b b percentage-of-incremental-row\nBEGIN a.b\nSET a = 4\nSET b = 4\nEND\nMOMENT 1\nBEGIN a.b\nSET a = 4\nSET b = 3\nEND\nMOMENT 2\n",
        "2 a.b a 0\n2 a.b b 0 R\n",
    ),
    (
        "a rise counts in the total of a dimension that is as it is",
        "CHART a.b n t u\nDIMENSION a a percentage-of-incremental-row\nDIMENSION b\nBEGIN a.b\nSET a = 0\nSET b = 0\nEND\nMOMENT 1\nBEGIN a.b\nSET a = 10\nSET b = 30\nEND\nMOMENT 2\n",
        "1 a.b b 0\n2 a.b a 25\n2 a.b b 30\n",
    ),
    (
        "several charts in a beat",
        "CHART a.b n t u\nDIMENSION c\nCHART e.f n t u\nDIMENSION c\nDIMENSION d\nBEGIN e.f\nSET d = 4\nSET c = 3\nEND\nBEGIN a.b\nSET c = 1\nEND\nMOMENT 7\n",
        "7 a.b c 1\n7 e.f c 3\n7 e.f d 4\n",
    ),
    (
        "dimensions of one id in two charts",
        "CHART a.b n t u\nDIMENSION c a incremental\nCHART e.f n t u\nDIMENSION c a incremental\nBEGIN a.b\nSET c = 1\nEND\nBEGIN e.f\nSET c = 10\nEND\nMOMENT 1\nBEGIN a.b\nSET c = 3\nEND\nBEGIN e.f\nSET c = 17\nEND\nMOMENT 2\n",
        "2 a.b c 2\n2 e.f c 7\n",
    ),
    (
        "an algorithm redefined in mid-text",
        "CHART a.b n t u\nDIMENSION a\nBEGIN a.b\nSET a = 100\nEND\nMOMENT 1\nCHART a.b n t u\nDIMENSION a a incremental\nBEGIN a.b\nSET a = 160\nEND\nMOMENT 2\nCHART a.b n t u\nDIMENSION a a absolute\nBEGIN a.b\nSET a = 7\nEND\nMOMENT 3\n",
        "1 a.b a 100\n2 a.b a 60\n3 a.b a 7\n",
    ),
    (
        "factors redefined in mid-text",
        "CHART a.b n t u\nDIMENSION a a absolute 1 3\nBEGIN a.b\nSET a = 1\nEND\nMOMENT 1\nCHART a.b n t u\nDIMENSION a a absolute 10 4\nBEGIN a.b\nSET a = 1\nEND\nMOMENT 2\n",
        "1 a.b a 0.3333333\n2 a.b a 2.5\n",
    ),
    (
        "the last definition of a beat holds for all its rows",
        "CHART a.b n t u\nDIMENSION a\nBEGIN a.b\nSET a = 12\nEND\nCHART a.b n t u\nDIMENSION a a absolute 1 5\nMOMENT 1\n",
        "1 a.b a 2.4\n",
    ),
    (
        "a redefinition keeps the number",
        "CHART a.b n t u\nDIMENSION a\nDIMENSION b\nBEGIN a.b\nSET a = 1\nSET b = 2\nEND\nMOMENT 1\nCHART a.b n t u\nDIMENSION b '' absolute 2\nDIMENSION a\nBEGIN a.b\nSET a = 1\nSET b = 2\nEND\nMOMENT 2\n",
        "1 a.b a 1\n1 a.b b 2\n2 a.b a 1\n2 a.b b 4\n",
    ),
    (
        "a dimension added later",
        "CHART a.b n t u\nDIMENSION b\nBEGIN a.b\nSET b = 1\nEND\nMOMENT 1\nCHART a.b n t u\nDIMENSION a\nBEGIN a.b\nSET a = 5\nSET b = 2\nEND\nMOMENT 2\n",
        "1 a.b b 1\n2 a.b b 2\n2 a.b a 5\n",
    ),
    (
        "values below 0",
        "CHART a.b n t u\nDIMENSION a a absolute 1 1000\nDIMENSION b a absolute -3\nDIMENSION c a absolute 1 -2\nBEGIN a.b\nSET a = -2500\nSET b = 5\nSET c = 5\nEND\nMOMENT 1\n",
        "1 a.b a -2.5\n1 a.b b -15\n1 a.b c -2.5\n",
    ),
    (
        "the limits of values",
        "CHART a.b n t u\nDIMENSION a\nDIMENSION b\nDIMENSION c a incremental\nBEGIN a.b\nSET a = 9223372036854775807\nSET b = -9223372036854775808\nSET c = -9223372036854775808\nEND\nMOMENT 1\nBEGIN a.b\nSET c = 9223372036854775807\nEND\nMOMENT 2\n",
        "1 a.b a 9223372000000000000\n1 a.b b -9223372000000000000\n2 a.b c 18446700000000000000\n",
    ),
    (
        "the limits of values times those of factors",
        "CHART a.b n t u\nDIMENSION a a absolute 2147483647\nDIMENSION b a absolute -2147483647 2147483647\nBEGIN a.b\nSET a = 9223372036854775807\nSET b = -9223372036854775808\nEND\nMOMENT 1\n",
        "1 a.b a 1677721500000000000000\n1 a.b b 9223372000000000000\n",
    ),
    (
        "thirds",
        "CHART a.b n t u\nDIMENSION a a absolute 1 3\nDIMENSION b a absolute 2 3\nDIMENSION c a absolute -1 3\nBEGIN a.b\nSET a = 1\nSET b = 1\nSET c = 1\nEND\nMOMENT 1\n",
        "1 a.b a 0.3333333\n1 a.b b 0.6666667\n1 a.b c -0.3333333\n",
    ),
    (
        "the smallest step, and below it",
        "CHART a.b n t u\nDIMENSION a a absolute 1 10000000\nDIMENSION b a absolute 1 100000000\nDIMENSION c a absolute 1 20000000\nDIMENSION d a absolute 3 20000000\nBEGIN a.b\nSET a = 1\nSET b = 1\nSET c = 1\nSET d = 1\nEND\nMOMENT 1\n",
        "1 a.b a 0.0000001\n1 a.b b 0\n1 a.b c 0\n1 a.b d 0.0000002\n",
    ),
    (
        "the greatest mantissa, and one past it",
        "CHART a.b n t u\nDIMENSION a\nDIMENSION b\nBEGIN a.b\nSET a = 16777215\nSET b = 16777216\nEND\nMOMENT 1\n",
        "1 a.b a 16777215\n1 a.b b 16777220\n",
    ),
    (
        "anomalous values, and an anomalous 0",
        "CHART a.b n t u\nDIMENSION a\nDIMENSION b\nDIMENSION c\nBEGIN a.b\nSET a = 7 A\nSET b = 0 A\nSET c = 7 a\nEND\nMOMENT 1\n",
        "1 a.b a 7 A\n1 a.b b 0 A\n1 a.b c 7\n",
    ),
    (
        "a word past the mark",
        "CHART a.b n t u\nDIMENSION a\nBEGIN a.b\nSET a = 7 A x\nEND\nMOMENT 1\n",
        "1 a.b a 7 A\n",
    ),
    (
        "factors of 0 count as 1",
        "CHART a.b n t u\nDIMENSION a a absolute 0 0\nBEGIN a.b\nSET a = 7\nEND\nMOMENT 1\n",
        "1 a.b a 7\n",
    ),
    (
        "unknown words are the defaults",
        "CHART a.b n t u\nDIMENSION a a sometimes 1 1 often\nBEGIN a.b\nSET a = 7\nEND\nMOMENT 1\n",
        "1 a.b a 7\n",
    ),
    (
        "a name is not told",
        "CHART a.b n t u\nDIMENSION a 'the name'\nBEGIN a.b\nSET a = 7\nEND\nMOMENT 1\n",
        "1 a.b a 7\n",
    ),
    (
        "a dropped block gives no point and no last row",
        "CHART a.b n t u\nDIMENSION a a incremental\nBEGIN a.b\nSET a = 1\nEND\nMOMENT 1\nBEGIN a.b\nSET a = 100\nFLUSH\nBEGIN a.b\nSET a = 5\nEND\nMOMENT 2\n",
        "2 a.b a 4\n",
    ),
    (
        "lines that say nothing",
        "\n = \t\nhello 'x\nchart a.b n t u\nCLABEL a b\nCHART a.b n t u\nDIMENSION a\n'\nBEGIN a.b\nSET a = 1\nEND\nMOMENT 1\n# the end\n",
        "1 a.b a 1\nSKIPPED 7\n",
    ),
    (
        "questions count as skipped",
        "QUERY a.b 0 60 60 sum\nCHART a.b n t u\nDIMENSION a\nBEGIN a.b\nQUERY\nSET a = 1\nEND\nMOMENT 1\n",
        "1 a.b a 1\nSKIPPED 2\n",
    ),
    (
        "a text that says DISABLE",
        "CHART a.b n t u\nDIMENSION a\nx\nBEGIN a.b\nSET a = 1\nEND\nMOMENT 1\nBEGIN a.b\nSET a = 2\nEND\nDISABLE\nMOMENT 2\n",
        "1 a.b a 1\nSKIPPED 1\n",
    ),
    (
        "DISABLE in a block, and bytes behind",
        "CHART a.b n t u\nDIMENSION a\nBEGIN a.b\nSET a = 1\nEND\nMOMENT 1\nBEGIN a.b\nDISABLE\nEND\nMOM",
        "1 a.b a 1\n",
    ),
    (
        "a collector's text",
        "CHART netdata.plugin_example '' \"Example plugin's run time\" \"milliseconds\" \"example plugin\" netdata.plugin_example area 110000 1 \"obsolete\" example run\nCLABEL \"_collect_plugin\" \"example\" 1\nCLABEL_COMMIT\nDIMENSION run_time '' absolute 1 1000\nBEGIN netdata.plugin_example 1000123\nSET run_time = -2500\nEND\nMOMENT 1\nCHART netdata.plugin_example '' \"Example plugin's run time\" \"milliseconds\" \"example plugin\" netdata.plugin_example area 110000 1 \"obsolete\" example run\nBEGIN netdata.plugin_example\nSET run_time=1500.7\nEND\nMOMENT 2\n",
        "1 netdata.plugin_example run_time -2.5\n2 netdata.plugin_example run_time 1.5\nSKIPPED 2\n",
    ),
    (
        "off the grid of a chart without a row is no matter",
        "CHART a.b n t u f c line 1 5 ''\nDIMENSION a\nCHART e.f n t u\nDIMENSION a\nBEGIN e.f\nSET a = 2\nEND\nMOMENT 7\n",
        "7 e.f a 2\n",
    ),
];

/// Why a text is refused, the text, what is told of it, and the status.
pub static REFUSED: [(&str, &str, &str, Status); 28] = [
    (
        "a line that is in no form",
        "CHART a.b n t u\nDIMENSION c\nBEGIN a.b\nSET c = 1\nEND\nMOMENT 9\nSET\n",
        "9 a.b c 1\nREFUSED 7 14\n",
        Status::Refused(7, 14),
    ),
    (
        "an open quote",
        "CHART a.b 'n t u\n",
        "REFUSED 1 13\n",
        Status::Refused(1, 13),
    ),
    (
        "a word that is missing",
        "CHART a.b n t\n",
        "REFUSED 1 14\n",
        Status::Refused(1, 14),
    ),
    (
        "an id without a part",
        "CHART .b n t u\n",
        "REFUSED 1 14\n",
        Status::Refused(1, 14),
    ),
    (
        "an id without its other part",
        "CHART a. n t u\n",
        "REFUSED 1 14\n",
        Status::Refused(1, 14),
    ),
    (
        "a number that is none",
        "CHART a.b n t u\nDIMENSION c\nBEGIN a.b\nSET c = 5.\n",
        "REFUSED 4 15\n",
        Status::Refused(4, 15),
    ),
    (
        "a number out of its limits",
        "MOMENT 4294967296\n",
        "REFUSED 1 15\n",
        Status::Refused(1, 15),
    ),
    (
        "moment 0",
        "MOMENT 0\n",
        "REFUSED 1 15\n",
        Status::Refused(1, 15),
    ),
    (
        "no chart",
        "DIMENSION c\n",
        "REFUSED 1 21\n",
        Status::Refused(1, 21),
    ),
    (
        "no chart to begin",
        "CHART a.b n t u\nBEGIN a.c\n",
        "REFUSED 2 21\n",
        Status::Refused(2, 21),
    ),
    (
        "no dimension",
        "CHART a.b n t u\nDIMENSION c\nBEGIN a.b\nSET d = 1\n",
        "REFUSED 4 22\n",
        Status::Refused(4, 22),
    ),
    (
        "no block to set in",
        "CHART a.b n t u\nDIMENSION c\nSET c = 1\n",
        "REFUSED 3 23\n",
        Status::Refused(3, 23),
    ),
    (
        "no block to end",
        "END\n",
        "REFUSED 1 23\n",
        Status::Refused(1, 23),
    ),
    (
        "a block is open at a MOMENT",
        "CHART a.b n t u\nDIMENSION c\nBEGIN a.b\nMOMENT 9\n",
        "REFUSED 4 24\n",
        Status::Refused(4, 24),
    ),
    (
        "a block is open at a BEGIN",
        "CHART a.b n t u\nDIMENSION c\nBEGIN a.b\nBEGIN a.b\n",
        "REFUSED 4 24\n",
        Status::Refused(4, 24),
    ),
    (
        "a second block",
        "CHART a.b n t u\nDIMENSION c\nBEGIN a.b\nEND\nBEGIN a.b\n",
        "REFUSED 5 25\n",
        Status::Refused(5, 25),
    ),
    (
        "a second block after one that was dropped",
        "CHART a.b n t u\nDIMENSION c\nBEGIN a.b\nFLUSH\nBEGIN a.b\nEND\nBEGIN a.b\n",
        "REFUSED 7 25\n",
        Status::Refused(7, 25),
    ),
    (
        "off the grid",
        "CHART t.c n t u f c line 1 5 ''\nDIMENSION a\nBEGIN t.c\nSET a = 1\nEND\nMOMENT 5\nBEGIN t.c\nSET a = 2\nEND\nMOMENT 7\n",
        "5 t.c a 1\nREFUSED 10 26\n",
        Status::Refused(10, 26),
    ),
    (
        "a moment that is not above the last",
        "CHART a.b n t u\nDIMENSION c\nBEGIN a.b\nSET c = 1\nEND\nMOMENT 9\nBEGIN a.b\nSET c = 2\nEND\nMOMENT 9\n",
        "9 a.b c 1\nREFUSED 10 27 9\n",
        Status::Refused(10, 27),
    ),
    (
        "a moment before the last",
        "MOMENT 4294967295\nMOMENT 3\n",
        "REFUSED 2 27 4294967295\n",
        Status::Refused(2, 27),
    ),
    (
        "another update_every",
        "CHART a.b n t u f c line 1 5 ''\nMOMENT 1\nCHART a.b n t u f c line 1 1 ''\n",
        "REFUSED 3 31\n",
        Status::Refused(3, 31),
    ),
    (
        "another update_every in one beat",
        "CHART a.b n t u f c line 1 5 ''\nCHART a.b n t u\n",
        "REFUSED 2 31\n",
        Status::Refused(2, 31),
    ),
    (
        "the text ends in a definition",
        "CHART a.b n t u\n",
        "REFUSED 1 28\n",
        Status::Refused(1, 28),
    ),
    (
        "the text ends in a line",
        "MOMENT 1\nMOMENT 2",
        "REFUSED 1 28\n",
        Status::Refused(1, 28),
    ),
    (
        "the text ends in its first line",
        "x",
        "REFUSED 0 28\n",
        Status::Refused(0, 28),
    ),
    (
        "the text ends in a block",
        "CHART a.b n t u\nDIMENSION c\nBEGIN a.b\nSET c = 1\nEND\nMOMENT 9\nBEGIN a.b\n",
        "9 a.b c 1\nREFUSED 7 28\n",
        Status::Refused(7, 28),
    ),
    (
        "the text ends before the beat is closed",
        "CHART a.b n t u\nDIMENSION c\nBEGIN a.b\nSET c = 1\nEND\n",
        "REFUSED 5 28\n",
        Status::Refused(5, 28),
    ),
    (
        "nothing is told of skipped lines where a text is refused",
        "x\nCHART a.b n t u\nDIMENSION c\nBEGIN a.b\nSET c = 1\nEND\nMOMENT 9\nEND\n",
        "9 a.b c 1\nREFUSED 8 23\n",
        Status::Refused(8, 23),
    ),
];
