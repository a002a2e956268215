// Tests of reading sheets: a sheet that is read, and ways to damage it, each with its fault and the fault's place.
#![tactic(auto)]

#[cfg(test)]
mod tests {
    use lexer::*;
    use sheet::*;
    use std::alloc::Global;
    use std::process::Abort;
    use std::test::Fail;

    // The lines of a sheet that is read.
    const EXAMPLE: [&str; 43] = [
        "link sheet 1",
        "agents",
        "agent ops",
        "agent sat",
        "agent eve enemy",
        "texts",
        "text date",
        "text safe",
        "text hot",
        "text cold",
        "roles",
        "role ground ops",
        "var word text",
        "fresh tag",
        "send pair self tag",
        "recv seal self sat pair sat pair tag word",
        "sig told self sat tag word",
        "role craft",
        "var peer agent",
        "var tag nonce",
        "var word text",
        "recv pair peer tag",
        "sig set self peer tag word",
        "send seal self peer pair self pair tag word",
        "nonces",
        "nonce na ops ground tag",
        "nonce nb ops ground tag",
        "known",
        "know pair eve key eve ops",
        "know seal eve sat date",
        "claim",
        "holds told ops sat na date needs set sat ops na date",
        "ranks",
        "free any agent",
        "free tag nonce",
        "rank 0 key ops sat",
        "rank -3 na",
        "rank 7 date",
        "seal 0 sat ops pair sat pair na date",
        "seal 1 ops any tag",
        "mark 0 told ops sat na date",
        "mark 2 set sat ops na date",
        "back 2 6 11 25 28 31 33",
    ];

    // In the tables below a case is the number of a line of the example, counted from 1, what stands in its stead, and the place of the fault.

    // No LF at the text's end.
    const SIZES: [(usize, &str, usize); 4] = [
        (43, "back 2 6 11 25 28 31 33", 0),
        (43, "back 2 6 11 25 28 31 33 ", 0),
        (43, "back 2 6 11 25 28 31 33\r", 0),
        (43, "back 2 6 11 25 28 31 33\n ", 0),
    ];

    // Bytes and spaces that lines have not, which are found before all else in the text.
    const SPACING: [(usize, &str, usize); 14] = [
        (15, "send pair  self tag\n", 147),
        (22, " recv pair peer tag\n", 289),
        (28, "known \n", 434),
        (29, "know\tdate\n", 440),
        (33, "\n", 548),
        (33, " \n", 548),
        (43, "back 2 6 11 25 28 31 33\n\n", 761),
        (43, "back 2 6 11 25 28 31 33\r\n", 737),
        (3, "agent agent\nagent  sat\n", 32),
        (42, "mark 2 \x7F sat\n", 710),
        (42, "mark 2 \x1F sat\n", 710),
        (43, "back 2 6 11 25 28 31 33 \n", 737),
        (4, "agent \x00\n", 30),
        (1, "\nlink sheet 1\n", 0),
    ];

    // Lines where they may not stand, fixed words and counts of words.
    const SHAPES: [(usize, &str, usize); 69] = [
        (1, "link sheet 2\n", 0),
        (1, "link sheet 1 1\n", 0),
        (1, "", 0),
        (1, "Link sheet 1\n", 0),
        (2, "agent ops\n", 13),
        (2, "agents agents\n", 13),
        (2, "", 13),
        (2, "texts\n", 13),
        (3, "agent\n", 20),
        (5, "agent eve friend\n", 40),
        (5, "agent eve enemy enemy\n", 40),
        (5, "text eve\n", 40),
        (5, "agent 9 friend\n", 40),
        (6, "roles\n", 56),
        (6, "texts 1\n", 56),
        (6, "", 56),
        (7, "text\n", 62),
        (7, "text date safe\n", 62),
        (11, "nonces\n", 101),
        (11, "", 101),
        (12, "role\n", 107),
        (12, "role ground ops ops\n", 107),
        (12, "", 107),
        (12, "send date\n", 107),
        (13, "var word\n", 123),
        (13, "var 9 text text\n", 123),
        (14, "fresh\n", 137),
        (14, "fresh tag nonce\n", 137),
        (17, "sig told\n", 208),
        (17, "sig told self sat tag word word\n", 208),
        (17, "know date\n", 208),
        (18, "roles\n", 235),
        (18, "role craft ops ops\n", 235),
        (18, "role\n", 235),
        (25, "nonces 2\n", 379),
        (25, "known\n", 379),
        (26, "nonce na ops ground\n", 386),
        (26, "nonce na ops ground tag tag\n", 386),
        (28, "claim\n", 434),
        (28, "know date\n", 434),
        (31, "ranks\n", 489),
        (31, "", 489),
        (32, "holds told needs set sat\n", 495),
        (32, "holds told ops sat na date set sat ops na date\n", 495),
        (32, "holds told ops sat na date safe needs set sat\n", 495),
        (32, "holds told ops needs set\n", 495),
        (32, "holds told ops needs set ops sat na date safe\n", 495),
        (32, "holds\n", 495),
        (33, "", 548),
        (34, "free any\n", 554),
        (34, "free any agent agent\n", 554),
        (36, "rank 0\n", 584),
        (36, "rank 0 key ops\n", 584),
        (36, "rank 0 key ops sat sat\n", 584),
        (37, "rank -3 na nb\n", 603),
        (39, "seal 0 sat\n", 626),
        (41, "mark 0 told\n", 682),
        (41, "mark 0 told ops sat na date safe\n", 682),
        (43, "back 2 6 11 25 28 31\n", 737),
        (43, "back 2 6 11 25 28 31 33 43\n", 737),
        (43, "ahead 2 6 11 25 28 31 33\n", 737),
        (43, "claim\n", 737),
        (15, "send pair self tag\nvar more text\n", 166),
        (15, "send pair self tag\nfresh more\n", 166),
        (38, "rank 7 date\nfree more text\n", 626),
        (40, "seal 1 ops any tag\nrank 1 safe\n", 682),
        (42, "mark 2 set sat\nseal 0 ops sat date\n", 725),
        (
            43,
            "back 2 6 11 25 28 31 33\nback 2 6 11 25 28 31 33\n",
            761,
        ),
        (43, "back 2 6 11 25 28 31 33\nranks\n", 761),
    ];

    // Lines above the most of their kind, and parts that end with too few.
    const COUNTS: [(usize, &str, usize); 21] = [
        (
            5,
            "agent eve enemy\nagent a4\nagent a5\nagent a6\nagent agent\n",
            83,
        ),
        (10, "text cold\ntext t5\ntext t6\ntext t7\n", 117),
        (
            24,
            "send seal self peer pair self pair tag word\nrole r3\nsend date\nrole r4\nsend date\nrole 5\n",
            415,
        ),
        (
            14,
            "fresh tag\nfresh b\nfresh c\nfresh d\nvar e text\n",
            171,
        ),
        (14, "fresh tag\nfresh b\nfresh c\nfresh d\nfresh e\n", 171),
        (
            15,
            "send date\nsend date\nsend date\nsend date\nsend date\nsend date\nsend date\nsend date\nsend date\n",
            227,
        ),
        (
            15,
            "recv date\nrecv date\nrecv date\nrecv date\nrecv date\nrecv date\nrecv date\nrecv date\nrecv date\n",
            227,
        ),
        (
            15,
            "sig go date\nsig go date\nsig go date\nsig go date\nsig go date\nsig go date\nsig go date\nsig go date\nsig go date\n",
            243,
        ),
        (
            27,
            "nonce n2 ops ground tag\nnonce n3 ops ground tag\nnonce n4 ops ground tag\nnonce n5 ops ground tag\nnonce n6 ops ground tag\nnonce n7 ops ground tag\n",
            530,
        ),
        (
            30,
            "know date\nknow date\nknow date\nknow date\nknow date\nknow date\nknow date\nknow date\n",
            536,
        ),
        (
            32,
            "holds told ops sat na date needs set sat ops na date\nholds told ops needs set sat\n",
            548,
        ),
        (
            35,
            "free tag nonce\nfree c text\nfree d text\nfree e text\nfree f text\n",
            620,
        ),
        (
            38,
            "rank 7 date\nrank 7 safe\nrank 7 hot\nrank 7 cold\nrank 7 nb\nrank 7 key ops ops\nrank 7 key ops eve\nrank 7 key sat sat\nrank 7 key sat eve\nrank 7 key eve eve\nrank 7 date\n",
            766,
        ),
        (
            40,
            "seal 1 ops any tag\nseal 1 ops any tag\nseal 1 ops any tag\nseal 1 ops any tag\nseal 1 ops any tag\nseal 1 ops any tag\nseal 1 ops any tag\nseal 1 ops any tag\nseal 1 ops any tag\nseal 1 ops any tag\nseal 1 ops any tag\nseal 1 ops any tag\n",
            872,
        ),
        (
            42,
            "mark 2 m2 ops\nmark 2 m3 ops\nmark 2 m4 ops\nmark 2 m5 ops\nmark 2 m6 ops\nmark 2 m7 ops\n",
            780,
        ),
        (2, "agents\ntexts\n", 20),
        (11, "roles\nnonces\n", 107),
        (15, "role early\n", 147),
        (13, "nonces\n", 123),
        (13, "role early ops\n", 123),
        (32, "", 495),
    ];

    // New names and signal words that are misformed, reserved or used twice.
    const NEW_NAMES: [(usize, &str, usize); 74] = [
        (3, "agent agent\n", 26),
        (3, "agent agents\n", 26),
        (3, "agent texts\n", 26),
        (3, "agent roles\n", 26),
        (3, "agent nonces\n", 26),
        (3, "agent known\n", 26),
        (3, "agent claim\n", 26),
        (3, "agent ranks\n", 26),
        (3, "agent text\n", 26),
        (3, "agent role\n", 26),
        (3, "agent var\n", 26),
        (3, "agent fresh\n", 26),
        (3, "agent send\n", 26),
        (3, "agent recv\n", 26),
        (3, "agent sig\n", 26),
        (3, "agent nonce\n", 26),
        (3, "agent know\n", 26),
        (3, "agent holds\n", 26),
        (3, "agent needs\n", 26),
        (3, "agent free\n", 26),
        (3, "agent rank\n", 26),
        (3, "agent seal\n", 26),
        (3, "agent mark\n", 26),
        (3, "agent self\n", 26),
        (3, "agent pair\n", 26),
        (3, "agent key\n", 26),
        (3, "agent back\n", 26),
        (3, "agent enemy enemy\n", 26),
        (3, "agent stations9\n", 26),
        (3, "agent 4ops\n", 26),
        (3, "agent o-s\n", 26),
        (4, "agent ops\n", 36),
        (7, "text ops\n", 67),
        (8, "text date\n", 77),
        (8, "text key\n", 77),
        (8, "text 1\n", 77),
        (12, "role ops ops\n", 112),
        (12, "role date\n", 112),
        (12, "role self us\n", 112),
        (18, "role ground\n", 240),
        (18, "role word\n", 240),
        (13, "var ops text\n", 127),
        (13, "var ground text\n", 127),
        (13, "var pair letter\n", 127),
        (13, "var date text\n", 127),
        (14, "fresh word\n", 143),
        (14, "fresh tagtagtag\n", 143),
        (14, "fresh fresh\n", 143),
        (19, "var craft agent\n", 250),
        (19, "var ground agent\n", 250),
        (20, "var peer nonce\n", 265),
        (17, "sig 9told self sat tag word\n", 212),
        (17, "sig needs self sat\n", 212),
        (17, "sig completed self\n", 212),
        (26, "nonce ops ops ground tag\n", 392),
        (26, "nonce date ops ground tag\n", 392),
        (26, "nonce craft ops ground tag\n", 392),
        (26, "nonce tag ops ground tag\n", 392),
        (26, "nonce peer ops ground tag\n", 392),
        (27, "nonce na ops ground tag\n", 416),
        (26, "nonce nonce us ground tag\n", 392),
        (32, "holds key ops needs set sat\n", 501),
        (32, "holds told9told ops needs set sat\n", 501),
        (32, "holds told ops needs mark sat\n", 516),
        (32, "holds told ops needs 1set sat\n", 516),
        (32, "holds told ops needs needs sat\n", 516),
        (34, "free ops agent\n", 559),
        (34, "free safe agent\n", 559),
        (34, "free na nonce\n", 559),
        (34, "free ground text\n", 559),
        (34, "free rank text\n", 559),
        (35, "free any nonce\n", 574),
        (41, "mark 0 back ops\n", 689),
        (41, "mark 0 told_ ops\n", 689),
    ];

    // Words that stand for nothing where they stand, or for the wrong thing.
    const WORDS: [(usize, &str, usize); 44] = [
        (12, "role ground eve\n", 119),
        (12, "role ground date\n", 119),
        (12, "role ground us\n", 119),
        (13, "var word word\n", 132),
        (13, "var word key\n", 132),
        (15, "send pair self peer\n", 162),
        (15, "send pair na tag\n", 157),
        (15, "send pair role tag\n", 157),
        (15, "send seal ops sat date\n", 157),
        (15, "send key sat self\n", 156),
        (15, "send key self date\n", 161),
        (15, "send key self word\n", 161),
        (15, "send seal self tag date\n", 162),
        (15, "send ground\n", 152),
        (17, "sig told self sat na word\n", 226),
        (17, "sig told key\n", 217),
        (22, "recv seal peer self tag\n", 299),
        (22, "recv seal self tag tag\n", 304),
        (26, "nonce na us ground tag\n", 395),
        (26, "nonce na date ground tag\n", 395),
        (26, "nonce na ops date tag\n", 399),
        (26, "nonce na sat ground tag\n", 399),
        (26, "nonce na eve craft tag\n", 399),
        (26, "nonce na ops ground word\n", 406),
        (26, "nonce na ops craft tag\n", 405),
        (29, "know self\n", 445),
        (29, "know pair eve tag\n", 454),
        (29, "know key date ops\n", 449),
        (29, "know key ops na\n", 453),
        (29, "know craft\n", 445),
        (32, "holds told self needs set sat\n", 506),
        (32, "holds told ops needs set us\n", 520),
        (34, "free any letter\n", 563),
        (34, "free any key\n", 563),
        (36, "rank 0 ops\n", 591),
        (36, "rank 0 us\n", 591),
        (36, "rank 0 tag\n", 591),
        (36, "rank 0 key ops any\n", 599),
        (36, "rank 0 key date sat\n", 595),
        (39, "seal 0 any ops date\n", 633),
        (39, "seal 0 sat date date\n", 637),
        (39, "seal 0 sat tag date\n", 637),
        (39, "seal 0 sat ops word\n", 641),
        (41, "mark 0 told any\n", 694),
    ];

    // Terms that are cut short, followed by more words, or too long.
    const LENGTHS: [(usize, &str, usize); 18] = [
        (15, "send\n", 147),
        (15, "send pair self\n", 147),
        (15, "send seal self\n", 147),
        (15, "send key self\n", 147),
        (15, "send self tag\n", 157),
        (15, "send pair self tag tag\n", 166),
        (16, "recv\n", 166),
        (16, "recv seal self sat\n", 166),
        (16, "recv key self sat word\n", 184),
        (29, "know\n", 440),
        (29, "know pair\n", 440),
        (29, "know date date\n", 450),
        (
            29,
            "know pair pair pair pair pair pair pair pair pair pair pair pair pair pair pair pair date date date date date date date date date date date date date date date date date\n",
            605,
        ),
        (
            29,
            "know pair pair pair pair pair pair pair pair pair pair pair pair pair pair pair pair pair pair pair pair pair pair pair pair pair pair pair pair pair pair pair pair pair\n",
            605,
        ),
        (
            29,
            "know pair pair pair pair pair pair pair pair pair pair pair pair pair pair pair pair pair pair pair pair pair pair pair pair pair pair pair pair pair pair pair pair\n",
            440,
        ),
        (39, "seal 0 sat ops\n", 626),
        (39, "seal 0 sat ops pair na\n", 626),
        (39, "seal 0 sat ops date date\n", 646),
    ];

    // Variables that stand nowhere, and nonces that are not first received.
    const VARIABLES: [(usize, &str, usize); 14] = [
        (14, "fresh tag\nfresh spare\n", 147),
        (13, "var word text\nvar spare agent\n", 137),
        (13, "var spare agent\nvar word text\nvar extra text\n", 123),
        (19, "var peer agent\nvar spare nonce\n", 261),
        (22, "send pair peer tag\n", 304),
        (22, "recv peer\n", 317),
        (22, "send tag\nrecv pair peer tag\n", 294),
        (22, "send pair tag pair peer tag\n", 299),
        (22, "sig go peer tag\nrecv tag\n", 301),
        (
            17,
            "sig told self sat tag word\nrole mid\nfresh spare\nsend date\nrole 9\n",
            244,
        ),
        (34, "free any agent\nfree spare text\n", 569),
        (40, "seal 1 ops any date\n", 569),
        (40, "seal 1 ops sat tag\n", 554),
        (40, "", 554),
    ];

    // Words that write no value.
    const VALUES: [(usize, &str, usize); 19] = [
        (36, "rank 00 key ops sat\n", 589),
        (36, "rank -0 key ops sat\n", 589),
        (36, "rank +1 key ops sat\n", 589),
        (36, "rank 32768 key ops sat\n", 589),
        (36, "rank -32769 key ops sat\n", 589),
        (36, "rank x key ops sat\n", 589),
        (36, "rank - key ops sat\n", 589),
        (36, "rank 1.0 key ops sat\n", 589),
        (36, "rank 007 key ops sat\n", 589),
        (36, "rank 0x1 key ops sat\n", 589),
        (36, "rank --1 key ops sat\n", 589),
        (36, "rank -01 key ops sat\n", 589),
        (36, "rank 65536 key ops sat\n", 589),
        (36, "rank 18446744073709551616 key ops sat\n", 589),
        (39, "seal -0 us ops date\n", 631),
        (39, "seal 32768 sat ops date\n", 631),
        (41, "mark 32768 told ops\n", 687),
        (41, "mark zero 9 us\n", 687),
        (38, "rank 07 na\n", 619),
    ];

    // Things that are ranked twice, and claims of one event from itself.
    const TWICE: [(usize, &str, usize); 10] = [
        (38, "rank 7 date\nrank 8 date\n", 626),
        (38, "rank 7 na\n", 614),
        (37, "rank -3 key sat ops\n", 603),
        (37, "rank 0 key ops sat\n", 603),
        (37, "rank -3 key eve eve\nrank -3 key eve eve\n", 623),
        (38, "rank 7 cold\nrank 7 date\nrank 7 cold\n", 638),
        (42, "mark 5 told ops sat na date\n", 710),
        (42, "mark 2 set sat\nmark 0 told ops sat na date\n", 725),
        (32, "holds told ops needs told ops\n", 495),
        (
            32,
            "holds told ops sat na date needs told ops sat na date\n",
            495,
        ),
    ];

    // Line numbers that are not those of the sections.
    const BACKS: [(usize, &str, usize); 12] = [
        (43, "back 2 6 11 25 28 31 34\n", 737),
        (43, "back 3 6 11 25 28 31 33\n", 737),
        (43, "back 02 6 11 25 28 31 33\n", 737),
        (43, "back 2 6 11 x 28 31 33\n", 737),
        (43, "back 2 6 11 25 28 33 31\n", 737),
        (43, "back 2 6 11 25 28 31 +33\n", 737),
        (43, "back 2 6 11 25 28 31 -33\n", 737),
        (43, "back 1 5 10 24 27 30 32\n", 737),
        (43, "back 0 0 0 0 0 0 0\n", 737),
        (10, "text cold\ntext more\n", 747),
        (10, "", 727),
        (30, "", 714),
    ];

    // Changes after which the sheet is still read.
    const READ: [(usize, &str); 24] = [
        (36, "rank -32768 key ops sat\n"),
        (36, "rank 32767 key ops sat\n"),
        (36, "rank -1 key ops sat\n"),
        (36, "rank 10 key ops sat\n"),
        (
            29,
            "know seal eve sat pair pair pair pair pair pair pair pair pair pair pair pair pair pair date date date date date date date date date date date date date date date\n",
        ),
        (
            29,
            "know pair pair pair pair pair pair pair pair pair pair pair pair pair pair pair date date date date date date date date date date date date date date date date\n",
        ),
        (30, "know key eve eve\n"),
        (18, "role craft sat\n"),
        (9, "text abcdefg8\n"),
        (9, "text Agent\n"),
        (9, "text link\n"),
        (9, "text sheet\n"),
        (9, "text X\n"),
        (32, "holds told ops needs told sat\n"),
        (32, "holds told ops sat needs told sat ops\n"),
        (32, "holds told ops needs set ops\n"),
        (42, "mark 0 told ops sat date na\n"),
        (42, "mark 2 told ops sat na\n"),
        (37, "rank 0 key sat sat\n"),
        (39, "seal 0 eve any key ops any\n"),
        (39, "seal 1 ops any tag\n"),
        (38, ""),
        (42, ""),
        (38, "rank 7 date\nrank 8 safe\nrank 9 nb\n"),
    ];

    // Whole texts, each with the number of its fault and the place.
    const TEXTS: [(&[u8], u8, usize); 19] = [
        (b"", 1, 0),
        (b"link sheet 1", 1, 0),
        (b"\x80", 1, 0),
        (b"\n ", 1, 0),
        (b"\n", 2, 0),
        (b"link sheet 1\r\nagents\r\n", 2, 0),
        (b"link\tsheet 1\n", 2, 0),
        (b" link sheet 1\n", 2, 0),
        (b"link  sheet 1\n", 2, 0),
        (b"link sheet 1 \n", 2, 0),
        (b"link sheet 1\n\n", 2, 13),
        (b"link sheet 1\nagents\nagent \x7F\n", 2, 20),
        (b"link sheet 1\nagents\nagent \x80\n", 2, 20),
        (b"link sheet 1\nagents\nagent \xFF\n", 2, 20),
        (b"link sheet 1\nagents\nagent \xC3\xA9\n", 2, 20),
        (b"link sheet 2\nagents \n", 2, 13),
        (b"sheet\n\ragents\n\xFF\n", 2, 6),
        (b"link sheet 2\n", 3, 0),
        (b"link sheet 1\nlink sheet 1\n", 3, 13),
    ];

    const LONG_STEP: &str =
        "send seal self station1 pair pair pair pair pair pair pair pair pair pair pair pair pair pair message1 message1 message1 message1 message1 message1 message1 message1 message1 message1 message1 message1 message1 message1 message1\n";

    const LONG_TERM: &str =
        "know seal station1 station1 pair pair pair pair pair pair pair pair pair pair pair pair pair pair message1 message1 message1 message1 message1 message1 message1 message1 message1 message1 message1 message1 message1 message1 message1\n";

    // What a long sheet begins with, and how often each part stands there.
    const LONG: [(usize, &str); 14] = [
        (
            1,
            "link sheet 1\nagents\nagent station1\ntexts\ntext message1\nroles\n",
        ),
        (1, "role one\n"),
        (8, LONG_STEP),
        (1, "role two\n"),
        (8, LONG_STEP),
        (1, "role three\n"),
        (8, LONG_STEP),
        (1, "role four\n"),
        (8, LONG_STEP),
        (1, "nonces\nknown\n"),
        (2, LONG_TERM),
        (1, "know message1\n"),
        (
            1,
            "know pair pair pair pair pair pair pair pair pair pair pair pair pair message1 message1 message1 message1 message1 message1 message1 message1 message1 message1 message1 message1 message1 message1\n",
        ),
        (1, "claim\nholds told station1 needs "),
    ];

    // What it ends with, after a signal word.
    const LONG_END: &str = " station1\nranks\nback 2 4 6 43 44 49 51\n";

    // The lines of examples/silence.sheet.
    const SILENCE: [&str; 30] = [
        "link sheet 1",
        "agents",
        "agent G",
        "agent B",
        "texts",
        "text date",
        "roles",
        "role bus B",
        "var t text",
        "fresh n",
        "send pair self n",
        "recv seal self G pair G pair n t",
        "sig set self G n t",
        "role ground G",
        "var j agent",
        "var c nonce",
        "var t text",
        "recv pair j c",
        "sig told self j c t",
        "send seal self j pair self pair c t",
        "nonces",
        "nonce na B bus n",
        "known",
        "claim",
        "holds set B G na date needs told G B na date",
        "ranks",
        "rank 0 key G B",
        "seal 0 G B pair G pair na date",
        "mark 0 set B G na date",
        "back 2 5 7 21 23 24 26",
    ];

    // The same sheet, and sheets that differ from it in a line or two: the first and last line that are replaced, counted from 1, and what stands there.
    const NEIGHBOURS: [(usize, usize, &str); 6] = [
        (0, 0, ""),
        (
            19,
            20,
            "send seal self j pair self pair c t\nsig told self j c t\n",
        ),
        (27, 27, "rank 1 key G B\n"),
        (29, 29, "mark 1 set B G na date\n"),
        (28, 28, ""),
        (
            24,
            30,
            "know key G B\nclaim\nholds set B G na date needs told G B na date\nranks\nrank 0 key G B\nseal 0 G B pair G pair na date\nmark 0 set B G na date\nback 2 5 7 21 23 25 27\n",
        ),
    ];

    // The rules with their numbers and rows.
    const ROWS: [(Rule, u8, Row); 11] = [
        (Rule::Size, 1, Row::Bytes),
        (Rule::Spacing, 2, Row::Bytes),
        (Rule::Line, 3, Row::Lines),
        (Rule::Count, 4, Row::Lines),
        (Rule::NewName, 5, Row::Words),
        (Rule::Word, 6, Row::Words),
        (Rule::Length, 7, Row::Terms),
        (Rule::Variable, 8, Row::Terms),
        (Rule::Value, 9, Row::Sheet),
        (Rule::Twice, 10, Row::Sheet),
        (Rule::Back, 11, Row::Sheet),
    ];

    // These lines, with another text in the place of those from `at` to `to` and their ends.
    fn replaced(
        heap: Global,
        lines: &[&str],
        at: usize,
        to: usize,
        with: &str,
    ) -> Result<Vec<u8>, Fail> {
        let mut text = Vec::new(heap);
        for (i, line) in lines.iter().enumerate() {
            if i + 1 == at {
                text.extend_from_slice(with.as_bytes())?;
            }
            if i + 1 < at || to < i + 1 {
                text.extend_from_slice(line.as_bytes())?;
                text.push(b'\n')?;
            }
        }
        Ok(text)
    }

    // The first lines of the example, as many as said, with another text in the place of one line and its end.
    fn damaged(heap: Global, lines: usize, at: usize, with: &str) -> Result<Vec<u8>, Fail> {
        replaced(heap, &EXAMPLE[0..lines.min(EXAMPLE.len())], at, at, with)
    }

    // The example with another text in the place of one line and its end.
    fn changed(heap: Global, at: usize, with: &str) -> Result<Vec<u8>, Fail> {
        damaged(heap, EXAMPLE.len(), at, with)
    }

    // The first lines of the example.
    fn first_lines(heap: Global, lines: usize) -> Result<Vec<u8>, Fail> {
        damaged(heap, lines, 0, "")
    }

    // A long sheet whose claim needs this signal.
    fn long(heap: Global, signal: &str) -> Result<Vec<u8>, Fail> {
        let mut text = Vec::new(heap);
        for (times, part) in LONG {
            for _ in 0..times {
                text.extend_from_slice(part.as_bytes())?;
            }
        }
        text.extend_from_slice(signal.as_bytes())?;
        text.extend_from_slice(LONG_END.as_bytes())?;
        Ok(text)
    }

    // The number and the place of the text's fault, or none where it is read.
    fn fault_of(heap: Global, text: &[u8]) -> Result<Option<(u8, usize)>, Fail> {
        let mut sheet = Sheet::new(heap);
        match sheet.read(text) {
            Ok(()) => Ok(None),
            Err(Declined::Fault(fault)) => Ok(Some((fault.rule.number(), fault.place))),
            Err(Declined::Memory) => Err(Fail::new("memory is wanting")),
        }
    }

    // That each case has the fault of this number at its place.
    fn check_cases(
        rt: &impl Abort,
        heap: Global,
        number: u8,
        cases: &[(usize, &str, usize)],
    ) -> Result<(), Fail> {
        for (i, (at, with, place)) in cases.iter().enumerate() {
            let text = changed(heap, *at, with)?;
            assert_eq!(rt; fault_of(heap, &text)?, Some((number, *place)), "{}", i);
        }
        Ok(())
    }

    #[test]
    fn finds_size(rt: HostRuntime) -> Result<(), Fail> {
        check_cases(&rt, rt.alloc(), 1, &SIZES)
    }

    #[test]
    fn finds_spacing(rt: HostRuntime) -> Result<(), Fail> {
        check_cases(&rt, rt.alloc(), 2, &SPACING)
    }

    #[test]
    fn finds_lines(rt: HostRuntime) -> Result<(), Fail> {
        check_cases(&rt, rt.alloc(), 3, &SHAPES)
    }

    #[test]
    fn finds_counts(rt: HostRuntime) -> Result<(), Fail> {
        check_cases(&rt, rt.alloc(), 4, &COUNTS)
    }

    #[test]
    fn finds_new_names(rt: HostRuntime) -> Result<(), Fail> {
        check_cases(&rt, rt.alloc(), 5, &NEW_NAMES)
    }

    #[test]
    fn finds_words(rt: HostRuntime) -> Result<(), Fail> {
        check_cases(&rt, rt.alloc(), 6, &WORDS)
    }

    #[test]
    fn finds_lengths(rt: HostRuntime) -> Result<(), Fail> {
        check_cases(&rt, rt.alloc(), 7, &LENGTHS)
    }

    #[test]
    fn finds_variables(rt: HostRuntime) -> Result<(), Fail> {
        check_cases(&rt, rt.alloc(), 8, &VARIABLES)
    }

    #[test]
    fn finds_values(rt: HostRuntime) -> Result<(), Fail> {
        check_cases(&rt, rt.alloc(), 9, &VALUES)
    }

    #[test]
    fn finds_repetitions(rt: HostRuntime) -> Result<(), Fail> {
        check_cases(&rt, rt.alloc(), 10, &TWICE)
    }

    #[test]
    fn finds_back_numbers(rt: HostRuntime) -> Result<(), Fail> {
        check_cases(&rt, rt.alloc(), 11, &BACKS)
    }

    #[test]
    fn finds_faults_of_whole_texts(rt: HostRuntime) -> Result<(), Fail> {
        for (i, (text, number, place)) in TEXTS.iter().enumerate() {
            assert_eq!(rt;
                fault_of(rt.alloc(), text)?,
                Some((*number, *place)),
                "{}",
                i
            );
        }
        Ok(())
    }

    // Wherever the example breaks off after a line, lines are wanting at its end.
    #[test]
    fn finds_early_ends(rt: HostRuntime) -> Result<(), Fail> {
        for lines in 1..EXAMPLE.len() {
            let text = first_lines(rt.alloc(), lines)?;
            assert_eq!(rt;
                fault_of(rt.alloc(), &text)?,
                Some((4, text.len())),
                "{}",
                lines
            );
        }
        Ok(())
    }

    #[test]
    fn reads_changed_examples(rt: HostRuntime) -> Result<(), Fail> {
        for (i, (at, with)) in READ.iter().enumerate() {
            let text = changed(rt.alloc(), *at, with)?;
            assert_eq!(rt; fault_of(rt.alloc(), &text)?, None, "{}", i);
        }
        Ok(())
    }

    #[test]
    fn reads_the_silence_sheet_and_its_neighbours(rt: HostRuntime) -> Result<(), Fail> {
        for (i, (at, to, with)) in NEIGHBOURS.iter().enumerate() {
            let text = replaced(rt.alloc(), &SILENCE, *at, *to, with)?;
            assert_eq!(rt; fault_of(rt.alloc(), &text)?, None, "{}", i);
        }
        Ok(())
    }

    #[test]
    fn reads_8192_bytes(rt: HostRuntime) -> Result<(), Fail> {
        let text = long(rt.alloc(), "sent")?;
        assert_eq!(rt; text.len(), 8192);
        assert_eq!(rt; fault_of(rt.alloc(), &text)?, None);
        let text = long(rt.alloc(), "sent2")?;
        assert_eq!(rt; text.len(), 8193);
        assert_eq!(rt; fault_of(rt.alloc(), &text)?, Some((1, 0)));
        Ok(())
    }

    #[test]
    fn is_empty_after_a_fault(rt: HostRuntime) -> Result<(), Fail> {
        let heap = rt.alloc();
        let mut sheet = Sheet::new(heap);
        assert!(rt; sheet.contents().is_none());
        sheet.read(&first_lines(heap, EXAMPLE.len())?)?;
        assert!(rt; sheet.contents().is_some());
        assert!(rt; sheet.read(&first_lines(heap, 10)?).is_err());
        assert!(rt; sheet.contents().is_none());
        Ok(())
    }

    #[test]
    fn reads_the_example(rt: HostRuntime) -> Result<(), Fail> {
        let heap = rt.alloc();
        let mut sheet = Sheet::new(heap);
        sheet.read(&first_lines(heap, EXAMPLE.len())?)?;
        let contents = sheet.contents().ok_or("the sheet is empty")?;
        let counts = [
            contents.agents().len(),
            contents.texts().len(),
            contents.roles().len(),
            contents.nonces().len(),
            contents.known().len(),
            contents.free().len(),
            contents.atoms().len(),
            contents.seals().len(),
            contents.marks().len(),
        ];
        assert_eq!(rt; counts, [3, 4, 2, 2, 2, 2, 3, 2, 2]);
        Ok(())
    }

    #[test]
    fn rules_stand_in_rows(rt: HostRuntime) {
        for (rule, number, row) in ROWS {
            assert_eq!(rt; rule.number(), number);
            assert_eq!(rt; rule.row(), row, "{}", number);
        }
    }
}
