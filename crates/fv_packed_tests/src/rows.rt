//! Data as text, in a table. A line is the name of a decoder, a name, a colon, the limit of the call,
//! the digits of the data, an arrow, and the result: the digits of the contents, or the first fault.
//! The decoder `lzma` is that of fv_lzma, and `uefi` and `tiano` are the two forms of fv_tiano. `open`
//! means a section for fv_open, with its fault as it is written.
//!
//! Other data are in `crates/fv_run_tests/rows/packed.rows`, for the library for C. The data of this
//! table stay here because the library does not show which fault a decoder found, and because a section
//! shows the form of the UEFI specification only if the contents are sections.
//!
//! liblzma 5.4.1 has made the LZMA streams, and EfiCompress of EDK II 2022.11 the data of `uefi` up to
//! the words. The others are spelled from the bits of their blocks. The offsets of the faults follow
//! from the specifications. The table is a single text that only one function names: a function that
//! names many texts is far slower to prove.

/// Returns data, each with its contents or its first fault.
pub(crate) fn rows() -> &'static str {
    "\
    lzma one byte, known length: 1 5d00008000010000000000000000307ffc0000 -> 61\n\
    lzma no bytes at all: 9  -> Short 0\n\
    lzma header is cut off: 266 5d001000000a010000000000 -> Short 12\n\
    lzma header without data: 266 5d001000000a01000000000000 -> Short 13\n\
    lzma range coder is cut off: 266 5d001000000a010000000000000070ba3c -> Short 17\n\
    lzma packets are cut off: 266 5d001000000a010000000000000070ba3c66d53285486b0d1bd896547d8d79c7f\
        0f89e71bacb6e3a15fea52dd215162f91db66a6cac4e9a44bc1b5bd -> Short 60\n\
    lzma last byte is missing: 266 5d001000000a010000000000000070ba3c66d53285486b0d1bd896547d8d79c7\
        f0f89e71bacb6e3a15fea52dd215162f91db66a6cac4e9a44bc1b5bd9d7519756cce376068c7a392b9ed2e069fa\
        99ce530d5a539d59b85b4d15e289b767bbfff5a3c00 -> Short 99\n\
    lzma properties 225: 266 e1001000000a010000000000000070ba3c66d53285486b0d1bd896547d8d79c7f0f89e\
        71bacb6e3a15fea52dd215162f91db66a6cac4e9a44bc1b5bd9d7519756cce376068c7a392b9ed2e069fa99ce53\
        0d5a539d59b85b4d15e289b767bbfff5a3c0000 -> Properties 0\n\
    lzma properties 255: 266 ff001000000a010000000000000070ba3c66d53285486b0d1bd896547d8d79c7f0f89e\
        71bacb6e3a15fea52dd215162f91db66a6cac4e9a44bc1b5bd9d7519756cce376068c7a392b9ed2e069fa99ce53\
        0d5a539d59b85b4d15e289b767bbfff5a3c0000 -> Properties 0\n\
    lzma first byte of the range coder is 1: 266 5d001000000a010000000000000170ba3c66d53285486b0d1b\
        d896547d8d79c7f0f89e71bacb6e3a15fea52dd215162f91db66a6cac4e9a44bc1b5bd9d7519756cce376068c7a\
        392b9ed2e069fa99ce530d5a539d59b85b4d15e289b767bbfff5a3c0000 -> Damaged 13\n\
    lzma code is 2^32 - 1: 266 5d001000000a0100000000000000ffffffffd53285486b0d1bd896547d8d79c7f0f8\
        9e71bacb6e3a15fea52dd215162f91db66a6cac4e9a44bc1b5bd9d7519756cce376068c7a392b9ed2e069fa99ce\
        530d5a539d59b85b4d15e289b767bbfff5a3c0000 -> Damaged 13\n\
    lzma code is not 0 after the marker: 1 5d00100000ffffffffffffffff0030c1fbffffffe0000001 -> Dama\
        ged 24\n\
    lzma copy before the first byte: 9 5d00100000ffffffffffffffff00fffffffeffffffffffffffff -> Dist\
        ance 19\n\
    lzma copy from beyond the dictionary: 4136 5d001000002810000000000000007ea00f589e47afcab16e0678\
        c4f464ff49f4bf488c1613b11506e70f9977ad1c45cbd8b4d805d538a58f343e5445c66060f95d109cbfa5cbfff\
        fefd86800 -> Distance 71\n\
    lzma copy beyond the length: 266 5d0010000009010000000000000070ba3c66d53285486b0d1bd896547d8d79\
        c7f0f89e71bacb6e3a15fea52dd215162f91db66a6cac4e9a44bc1b5bd9d7519756cce376068c7a392b9ed2e069\
        fa99ce530d5a539d59b85b4d15e289b767bbfff5a3c0000 -> Overlong 94\n\
    lzma literal beyond the length: 9 5d0010000001000000000000000030989cfffffffff0000000 -> Overlon\
        g 20\n\
    lzma marker before the length: 267 5d001000000b010000000000000070ba3c66d53285486b0d1bd896547d8d\
        79c7f0f89e71bacb6e3a15fea52dd215162f91db66a6cac4e9a44bc1b5bd9d7519756cce376068c7a392b9ed2e0\
        69fa99ce530d5a539d59b85b4d15e289b767bbfff5a3c0000 -> Marker 100\n\
    lzma length is not reached: 9 5d0000800003000000000000000030987c000000 -> Short 20\n\
    uefi no bytes: 0 08000000000000000000000000000000 -> \n\
    uefi one byte: 1 08000000010000000001000006100000 -> 61\n\
    uefi one byte, 8 times: 8 0b000000080000000002200430513647401000 -> 6161616161616161\n\
    uefi two bytes, by turns: 8 0c00000008000000000328044a0826f11980cc00 -> 6162616261626162\n\
    uefi 300 zeros: 300 0c0000002c010000000328044bfda27181805800 -> 0000000000000000000000000000000\
        0000000000000000000000000000000000000000000000000000000000000000000000000000000000000000000\
        0000000000000000000000000000000000000000000000000000000000000000000000000000000000000000000\
        0000000000000000000000000000000000000000000000000000000000000000000000000000000000000000000\
        0000000000000000000000000000000000000000000000000000000000000000000000000000000000000000000\
        0000000000000000000000000000000000000000000000000000000000000000000000000000000000000000000\
        0000000000000000000000000000000000000000000000000000000000000000000000000000000000000000000\
        00000000000000000000000\n\
    uefi a sentence, 3 times: 135 3400000087000000002b48ada22358c0cffa983d171554e2a82c726209c000136\
        721cddfa44ce8bdee6abe10bcf8a8bd250f9d2663d1abb647f60000 -> 74686520717569636b2062726f776e20\
        666f78206a756d7073206f76657220746865206c617a7920646f672e2074686520717569636b2062726f776e206\
        66f78206a756d7073206f76657220746865206c617a7920646f672e2074686520717569636b2062726f776e2066\
        6f78206a756d7073206f76657220746865206c617a7920646f672e20\n\
    uefi words: 95 330000005f000000002c4aadb1b52a80cfc06216f6385a0853630c48be06041700004f5e5704c723\
        6772c8dc97546657a062562d18cb83fafe7800 -> 4c5a4d412045444b204949205045492044584520534d4d205\
        5454649205049204646532046562047554944204c5a4d412045444b204949205045492044584520534d4d205545\
        46492050492046465320465620475549442050454920445845\n\
    uefi two blocks: 3 0d0000000300000000020000061000001000006200 -> 616162\n\
    uefi a match of 3, cut: 2 0d0000000200000000010000061000001000010000 -> 6161\n\
    uefi a match of 258: 259 0d000000030100000001000006100000100001ff00 -> 616161616161616161616161\
        6161616161616161616161616161616161616161616161616161616161616161616161616161616161616161616\
        1616161616161616161616161616161616161616161616161616161616161616161616161616161616161616161\
        6161616161616161616161616161616161616161616161616161616161616161616161616161616161616161616\
        1616161616161616161616161616161616161616161616161616161616161616161616161616161616161616161\
        6161616161616161616161616161616161616161616161616161616161616161616161616161616161616161616\
        161616161616161616161616161616161616161\n\
    uefi fewer bytes than the header has: 9 00000000000000 -> Short 7\n\
    uefi fewer bytes than the header says: 9 09000000010000000001000006100000 -> Short 16\n\
    uefi fewer bytes than the header says, and a length above the limit: 0 090000000100000000010000\
        06100000 -> Short 16\n\
    uefi a length above the limit: 0 08000000010000000001000006100000 -> TooLong 4\n\
    uefi no packed data: 1 0000000001000000 -> Short 8\n\
    uefi codes that are cut off: 1 06000000010000000001000006100000 -> Short 14\n\
    uefi a match that is cut off: 8 0a00000008000000000328044a0826f11980cc00 -> Short 18\n\
    uefi a code of one length: 1 0300000001000000000109 -> Lengths 11\n\
    uefi a length above 16: 1 050000000100000000010fffc0 -> Lengths 12\n\
    uefi 20 lengths in the code of lengths: 1 0b000000010000000001a12000000000000000 -> Lengths 18\
        \n\
    uefi a code of bytes of one length: 1 0500000001000000000100c020 -> Lengths 12\n\
    uefi a code of distances of one length: 1 070000000100000000010000061120 -> Lengths 14\n\
    tiano a code of distances of one length: 1 070000000100000000010000061090 -> Lengths 14\n\
    uefi a match before the first byte: 3 070000000300000000010000100000 -> Distance 14\n\
    tiano a match before the first byte: 3 070000000300000000010000100000 -> Distance 14\n\
    open no-data: 99 4600000298584eee143959429d6edc7bd79403cf460001005d0000800020000000000000000008\
        002f3481ac85c1b22393b2953d17e2400c8df798684473b817fdfffbc08800 -> the packed data are \
        damaged: the data end too early (section fault 3) at offset 70\n\
    open properties: 99 4600000298584eee143959429d6edc7bd79403cf18000100e10000800020000000000000000\
        008002f3481ac85c1b22393b2953d17e2400c8df798684473b817fdfffbc08800 -> the packed data are \
        damaged: the properties are unknown (section fault 3) at offset 24\n\
    open customized-properties: 99 270000012000000002ffffffffffffffffffffffffffffffffffffffffffffff\
        ffffffffffffff -> the packed data are damaged: the properties are unknown (section fault \
        3) at offset 9\n\
    open customized-of-3: 99 0c0000012000000002616263 -> the packed data are damaged: the data end \
        too early (section fault 3) at offset 12\n\
    open standard-of-3: 99 0c0000010300000001616263 -> the packed data are damaged: the data end \
        too early (section fault 3) at offset 12\n\
    open type-3: 9 090000010000000003 -> the way to open the section is not known (section fault \
        2) at offset 8\n\
    "
}
