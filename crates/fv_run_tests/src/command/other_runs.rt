//! Small runs of each command. Each of them is also a row of `rows/`, which
//! `tests/program/test_rows.py` runs.

/// Returns runs of each command. The test lets their readers and writers fail after each byte in
/// turn.
pub(crate) fn small_runs() -> &'static str {
    "\
    normalise: two-sections -> 0 =two-sections-image\n\
    normalise: empty -> 0 =empty\n\
    normalise: ext-header-image -> 0 =ext-header-image\n\
    normalise: misaligned-file-image -> 0 =misaligned-file-image\n\
    normalise: nested-image -> 0 =nested-image\n\
    normalise-all: ff*8 two-sections 00 -> 0 =ff*8 two-sections-image 00\n\
    normalise: '0g -> 2 fault 25 at 0|\n\
    normalise-all: 6162 -> 0 =6162\n\
    normalise-all: '0 12 3 -> 0 =0123\n\
    normalise-all: 'ABCDEFabCDef -> 0 =abcdefabcdef\n\
    list: two-sections -> 0 volume ffs2 length 128 files 1|  file 0 0a0a0a0a-0a0a-0a0a-0a0a-0a0a0a0a0a0a type 02 \
        attributes 40 data 14|    section 0 type 19 short body 1|    section 1 type 19 short body 2|\n\
    list-sums: empty -> 0 volume ffs2 length 128 files 0 sha256 \
        fa2372b57e3223fafe321ef347cb77d4373819ad5abdea2446fff51d258ed758|\n\
    extract 0a - 1: two-sections -> 0 =050000195a000000060000190102\n\
    extract 0a 19 3: two-sections -> 1 not found|\n\
    extract 0a 19 1: filler-zero -> 1 not sectioned|\n\
    extract 0b - 1: states -> 0 =\n\
    extract 0a - 1: security-core-frames -> 0 =040000190500001958\n\
    extract 0a - 1: H128 0a*16 27aa0100380000f8 4142434445464748494a4b4c4d4e4f505152535455565758595a616263646566 \
        -> 0 =4142434445464748494a4b4c4d4e4f505152535455565758595a616263646566\n\
    extract 0a - 1: H200 0a*16 e5aa01007a0000f8 4142434445464748494a4b4c4d4e4f505152535455565758595a616263646566 \
        4142434445464748494a4b4c4d4e4f505152535455565758595a616263646566 \
        4142434445464748494a4b4c4d4e4f505152535455565758595a616263646566 0abc ff*6 -> 0 \
        =4142434445464748494a4b4c4d4e4f505152535455565758595a616263646566 \
        4142434445464748494a4b4c4d4e4f505152535455565758595a616263646566 \
        4142434445464748494a4b4c4d4e4f505152535455565758595a616263646566 0abc\n\
    scan: 11*8 empty 22*16 H72 33*8 -> 0 volume at 8 length 128|volume at 152 length 72|\n\
    survey: H128 ff*55 00 -> 1 volume at 0 length 128 system 8c8ce578-8a3d-4f1c-9935-896185c32dd3 found|  \
        volume-header at 0 length 72|  free at 72 length 48 finding 16|  lost at 120 length 8 finding 16|    unread at 120 \
        length 8|sums volume-header 72 free 48 unread 8 all 128 findings 2 fixed 0|\n\
    survey-open: H128 0a*16 2eaa0200300000f8 0c0000010300000000 010203 0c0000010300000003 616263 ff*8 -> 1 volume at 0 \
        length 128 system 8c8ce578-8a3d-4f1c-9935-896185c32dd3 found|  volume-header at 0 length 72|  file at 72 length 48 \
        0a0a0a0a-0a0a-0a0a-0a0a-0a0a0a0a0a0a type 02|    file-header at 72 length 24|    section at 96 length 12 type 01|      \
        section-header at 96 length 4|      packed at 100 length 8|    section at 108 length 12 type 01|      section-header \
        at 108 length 4|      packed at 112 length 8|  free at 120 length 8|sums volume-header 72 file-header 24 \
        section-header 8 packed 16 free 8 all 128 findings 0 fixed 0|source 1 in 0 at 96 length 12 stored 3|lost at 0 length \
        3 finding 20|  unread at 0 length 3|sums unread 3 all 3 findings 1 fixed 0|closed in 0 at 108 length 12 not opened: \
        section fault 2 at +8|opened 1 closed 1|\n\
    cells: deleted-file -> 0 header at 0 length 72|deleted at 72 length 32|free at 104 length 24|sums files 0 pads 0 \
        deleted 32 filler 0 free 24|\n\
    unfix: H128 0a*16 43aa0104180000f8 ff*32 -> 0 =H128 0a*16 47aa0100180000f8 ff*32\n\
    unfix: H128 0a*16 43ab0104180000f8 ff*32 -> 2 fault 14 at 89|\n\
    open: 0b00000102000000000102 ff -> 0 =0102\n\
    open: 050000195a -> 2 section fault 2 at 3|\n\
    open 0.1: H128 0a*16 33aa02002b0000f8050000195a0000000b00000102000000000102 ff*13 -> 0 =0102\n\
    open 0.0: H128 0a*16 33aa02002b0000f8050000195a0000000b00000102000000000102 ff*13 -> 1 not packed|\n\
    list-open: 00*16 78e58c8c3d8a1c4f9935896185c32dd378000000000000005f465648fffe04004800def5000000020100000078 \
        00*11 0a*16 34aa02002a0000f8ffffff011200000005000000000500001901ffffffffffff -> 0 volume ffs2 length 120 \
        files 1|  file 0 0a0a0a0a-0a0a-0a0a-0a0a-0a0a0a0a0a0a type 02 attributes 00 data 18|    section 0 type \
        01 extended body 10 stored 5|      section 0 type 19 short body 1|\n\
    extract-open 0b 19 1: 00*16 \
        78e58c8c3d8a1c4f9935896185c32dd3e0000000000000005f465648fffe040048000ef50000000201000000e0 00*11 0a*16 \
        c9aa0200950000f87d000001740000000005000019090000006c000017 00*16 \
        78e58c8c3d8a1c4f9935896185c32dd368000000000000005f465648fffe04004800fef5000000020100000068 00*11 0b*16 \
        2faa02001f0000f807000019010203ffffffff -> 0 =010203\n\
    extract-open 0b - 1: 00*16 \
        78e58c8c3d8a1c4f9935896185c32dd390000000000000005f465648fffe04004800aef5000000020100000090 00*11 0a*16 \
        1caa0200420000f82a00000298584eee143959429d6edc7bd79403cf180001005d00000100 ff*8 0100000000ffffffffffff \
        -> 1 not found, 1 sections not searched|\n\
    check: empty -> 0 canonical|\n\
    check: H160 0a*16 3baa07001e0000f8060000130308 ff*18 00aaf000200000f801 ff*31 -> 1 note pad at 104 holds 1 \
        bytes|note depex in 0a0a0a0a-0a0a-0a0a-0a0a-0a0a0a0a0a0a fault 3 at 0|not canonical|\n\
    check-all: ff*64 file-state-bit -> 2 volume at 64 length 128 fault 10 at 159|\n\
    compare: file-sum-zero-data & file-sum-zero-data -> 0 same|\n\
    compare at 8 at 16: 00*8 empty ff & 00*16 empty ff*8 -> 0 same|\n\
    compare: file-sum-zero-data & file-without-data -> 1 different at file 0 attributes|\n\
    compare: '0 & 00*0 -> 2 first fault 25 at 0|\n\
    compare: empty & head-sum-off-by-one -> 2 second fault 6 at 0|\n\
    same: 010203 & 010204 -> 1 different: first 0 at 0 length 3, second 0 at 0 length 3|\n\
    same: H128 0a*16 2faa02002f0000f8 170000010e00000000 0e0000010500000000 050000195a ff*9 & H128 0a*16 \
        2faa02002f0000f8 170000010e00000000 0e0000010500000000 050000195b ff*9 -> 1 different: first 2 at 4 length 1, second 2 \
        at 4 length 1|\n\
    hobs: hand-off-list & 00*0 -> 0 hob 0001 length 56|hob 0009 length 56|hob fffe length 8|hob 0004 length 32|hob \
        ffff length 8|consumed 160|\n\
    hobs 16711680: hand-off-list & empty -> 0 hob 0001 length 56|hob 0009 length 56 volume|hob fffe length 8|hob \
        0004 length 32|hob ffff length 8|consumed 160|\n\
    hobs: PHIT & 00*0 -> 2 hob fault 5 at 56|\n\
    "
}
