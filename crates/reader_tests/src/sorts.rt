//! The sorts of words, each with its edges.

pub(crate) const TEXTS: &[&[u8]] = &[
    // directives, of any length
    b". .end .END .x1 ..a .a. end.",
    b".abcdefghijklmnopqrstuvwxyzabcdefghij",
    // labels of 1 and of 32 letters and digits
    b"a: 5: 1a: a1: : a:: a:b -5: .a:",
    b"abcdefghijklmnopqrstuvwxyzabcdef:",
    b"1bcdefghijklmnopqrstuvwxyzabcde2:",
    // one of 33
    b"abcdefghijklmnopqrstuvwxyzabcdefg:",
    // names of 1 and of 32 letters and digits
    b"a Z a1 Z9z 5a a_b a-b",
    b"abcdefghijklmnopqrstuvwxyzabcdef",
    b"abcdefghijklmnopqrstuvwxyz012345",
    // one of 33
    b"abcdefghijklmnopqrstuvwxyzabcdefg",
    // numbers, of any length
    b"0 007 - -5 --5 5- +5 -5a 5.0",
    b"-123456789012345678901234567890123456",
    // the bytes beside the letters and the digits
    b"@ A Z [ ` a z { / 0 9",
    // what is none of these
    b"if_icmplt",
    b"java/lang/Object",
    b"([Ljava/lang/String;)V",
    b"<clinit> <init>",
    b"_ ~ !",
];
