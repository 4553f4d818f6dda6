//! Names and strings: their bytes and their escapes.

use crate::parsing::{Texts, WHOLE, check};
use std::alloc::AllocError;
use std::test::*;

/// Names of an attribute of the dataset, and what they stand for.
const NAMES: Texts = Texts {
    around: ("netcdf t {\n:", " = 1b ; }"),
    said: ("Known(0)\n:", " Byte \"\\x01\""),
    given: b"\
        _|_\n\
        \\_|_\n\
        \\2|2\n\
        nA9_.@+-m|nA9_.@+-m\n\
        n\\!\\~\\:\\;\\{m|n!~:;{m\n\
        a\\ \\ b|a  b\n\
        \\a\\\\|a\\\\\n\
        na\xc3\xafve|na\\xc3\\xafve\n\
        \\\xe2\\\x82\\\xac|\\xe2\\x82\\xac\n\
        \xf4\x8f\xbf\xbf|\\xf4\\x8f\\xbf\\xbf\n\
        \\data|data\n\
        data_|data_\n\
        Data|Data\n\
        ",
    refused: b"\
        2|2 Syntax\n\
        2a|2 BadNumber\n\
        .a|2 BadToken\n\
        -a|2 BadToken\n\
        n!m|2 BadToken\n\
        n/m|2 BadToken\n\
        n m|2 Syntax\n\
        n:m|2 Syntax\n\
        n(m|2 Syntax\n\
        n\\^m|2 BadToken\n\
        n\\\x7fm|2 BadToken\n\
        # these are words, but the format has no such names\n\
        n\\/m|2 BadName\n\
        \\ a|2 BadName\n\
        a\\ |2 BadName\n\
        \\.a|2 BadName\n\
        \\-a|2 BadName\n\
        \xe2\x82|2 BadName\n\
        \xc0\xaf|2 BadName\n\
        \xed\xa0\x80|2 BadName\n\
        \xf4\x90\x80\x80|2 BadName\n\
        # reserved words\n\
        netcdf|2 Syntax\n\
        dimensions|2 Syntax\n\
        variables|2 Syntax\n\
        data|2 Syntax\n\
        byte|2 Syntax\n\
        char|2 Syntax\n\
        short|2 Syntax\n\
        int|2 Syntax\n\
        long|2 Syntax\n\
        float|2 Syntax\n\
        real|2 Syntax\n\
        double|2 Syntax\n\
        ubyte|2 Syntax\n\
        ushort|2 Syntax\n\
        uint|2 Syntax\n\
        int64|2 Syntax\n\
        uint64|2 Syntax\n\
        string|2 Syntax\n\
        unlimited|2 Syntax\n\
        UNLIMITED|2 Syntax\n\
        ",
    ..WHOLE
};

/// Bytes between the braces of a text.
const BYTES: Texts = Texts {
    around: ("netcdf t {\n", "\n}"),
    refused: b"\
        \x00|2 BadToken\n\
        \x08|2 BadToken\n\
        \x0e|2 BadToken\n\
        '|2 BadToken\n\
        {|2 BadToken\n\
        \\|2 BadToken\n\
        \x7f|2 BadToken\n\
        \x80|2 Syntax\n\
        }|3 Syntax\n\
        ",
    ..WHOLE
};

/// Strings, and the characters that they stand for.
const STRINGS: Texts = Texts {
    around: ("netcdf t {\n\n:a = \"", "\" ; }"),
    said: ("Known(0)\n:a Char \"", "\""),
    given: b"\
        |\n\
        a^b\x00\xff|a\\nb\\x00\\xff\n\
        // ; }'|// ; }\\'\n\
        \\a\\b\\t\\n\\v\\f\\r|\\x07\\x08\\t\\n\\x0b\\x0c\\r\n\
        \\\\\\\"\\'\\?\\q\\X41|\\\\\\\"\\'?qX41\n\
        \\^\\\xff|\\n\\xff\n\
        # each other byte that is printed stands for itself, but for digits, the marks of this table and what has a row above\n\
        \\ \\!\\#\\$\\%\\&\\(\\)\\*\\+\\,\\-\\.\\/\\:\\;\\<\\=\\>\\@| !#$%&()*+,-./:;<=>@\n\
        \\A\\B\\C\\D\\E\\F\\G\\H\\I\\J\\K\\L\\M\\N\\O\\P\\Q\\R\\S\\T\\U\\V\\W\\X\\Y\\Z|ABCDEFGHIJKLMNOPQRSTUVWXYZ\n\
        \\c\\d\\e\\g\\h\\i\\j\\k\\l\\m\\o\\p\\q\\s\\u\\w\\y\\z\\[\\]\\_\\`\\{\\}\\~|cdeghijklmopqsuwyz[]_`{}~\n\
        \\8\\9|89\n\
        \\1-\\7-\\18\\778|\\x01-\\x07-\\x018?8\n\
        \\0\\00\\000\\0000|\\x00\\x00\\x00\\x000\n\
        \\377\\3777\\1012|\\xff\\xff7A2\n\
        \\x41\\x4\\x414\\xaF\\xfAf\\x4g|A\\x04A4\\xaf\\xfaf\\x04g\n\
        \\\\x \\\\400|\\\\x \\\\400\n\
        # a quote after 17 bytes, and an escape of one after 89\n\
        abcdefghijklmnopq|abcdefghijklmnopq\n\
        abcdefghijabcdefghijabcdefghijabcdefghijabcdefghijabcdefghijabcdefghijabcdefghijabcdefghi\\\"|abcdefghijabcdefghijabcdefghijabcdefghijabcdefghijabcdefghijabcdefghijabcdefghijabcdefghi\\\"\n\
        # strings are joined\n\
        a\", \"b\", \"c\\n\",\"d|abc\\nd\n\
        ",
    refused: br#"
"|3 BadToken
\|3 BadToken
\400|3 BadToken
\777\0|3 BadToken
\x|3 BadToken
\xg1|3 BadToken
abcdefghijklmnopqrstuvwxyz\x|3 BadToken
"#,
    ..WHOLE
};

#[test]
fn names_and_strings_stand_for_bytes(rt: HostRuntime) -> Result<(), AllocError> {
    static ALL: &[Texts] = &[NAMES, BYTES, STRINGS];
    check(&rt, rt.alloc(), ALL)
}
