//! Mistakes in scripts, and what a person is told of each.

/// A script, the line by which it is refused, and the first line that is told.
pub type Mistake = (&'static [u8], &'static [u8], &'static [u8]);

// Each stands once, also where several mistakes are told alike.
const SCRIPTS: &[Mistake] = &[
    (
        b"message a(x: int) message b(n: int, s: text)\nactor m {\n  when a(x) { print x }\n}\n",
        b"refused script 77 BadSyntax\n",
        b"home:3:22: BadSyntax: `;` is missing here\n",
    ),
    (
        b"message a(x: int) message b(n: int, s: text)\nactor m {\n  when a(x) { post m a(x) }\n}\n",
        b"refused script 81 BadSyntax\n",
        b"home:3:26: BadSyntax: `;` is missing here\n",
    ),
    (
        b"message a(x: int) message b(n: int, s: text)\nactor m {\n  when a(x) { stop }\n}\n",
        b"refused script 74 BadSyntax\n",
        b"home:3:19: BadSyntax: `;` is missing here\n",
    ),
    (
        b"message a(x: int) message b(n: int, s: text)\nactor m {\n  when a(x) {\n    print x\n    post m a(x);\n  }\n}\n",
        b"refused script 85 BadSyntax\n",
        b"home:4:12: BadSyntax: `;` is missing here\n",
    ),
    (
        b"message a(x: int) message b(n: int, s: text)\nactor m {\n  when a(x) && a(y) { }\n}\n",
        b"refused script 67 BadSyntax\n",
        b"home:3:13: BadSyntax: patterns are joined by `&`: when KIND(..) & KIND(..)\n",
    ),
    (
        b"message a(x: int) message b(n: int, s: text)\nactor m {\n  when a(x), a(y) { }\n}\n",
        b"refused script 66 BadSyntax\n",
        b"home:3:12: BadSyntax: patterns are joined by `&`: when KIND(..) & KIND(..)\n",
    ),
    (
        b"message a(x: int) message b(n: int, s: text)\nactor m {\n  when a(x) and a(y) { }\n}\n",
        b"refused script 67 BadSyntax\n",
        b"home:3:13: BadSyntax: patterns are joined by `&`: when KIND(..) & KIND(..)\n",
    ),
    (
        b"message a(x: int) message b(n: int, s: text)\nactor m {\n  when a(x) & a(y) if x == y & x > 1 { }\n}\n",
        b"refused script 84 BadSyntax\n",
        b"home:3:30: BadSyntax: conditions are joined by `&&`, and patterns by `&`\n",
    ),
    (
        b"message a(x: int) message b(n: int, s: text)\nactor m {\n  when a(x) if x > 1 and x < 5 { }\n}\n",
        b"refused script 76 BadSyntax\n",
        b"home:3:22: BadSyntax: conditions are joined by `&&` and `||`\n",
    ),
    (
        b"message a(x: int) message b(n: int, s: text)\nactor m {\n  when a(x) if 1 < x < 5 { }\n}\n",
        b"refused script 76 BadSyntax\n",
        b"home:3:22: BadSyntax: a comparison has two sides: write 1 < x && x < 5, and not 1 < x < 5\n",
    ),
    (
        b"message a(x: int) message b(n: int, s: text)\nactor m {\n  when a(x) if x { }\n}\n",
        b"refused script 72 BadSyntax\n",
        b"home:3:17: BadSyntax: a comparison has two sides: x == 1 or place == \"hall\"\n",
    ),
    (
        b"message a(x: int) message b(n: int, s: text)\nactor m {\n  when a(x) if (x == 1 && x == 2) || x == 3 { }\n}\n",
        b"refused script 78 BadSyntax\n",
        b"home:3:24: BadSyntax: `&&` stands in no parentheses: write (p && q) || r as p || r && q || r\n",
    ),
    (
        b"message a(x: int) message b(n: int, s: text)\nactor m {\n  when a(x) if x - (x - 1) > 0 { }\n}\n",
        b"refused script 74 BadSyntax\n",
        b"home:3:20: BadSyntax: a sum has no parentheses: write x - y + 1, and not x - (y - 1)\n",
    ),
    (
        b"message a(x: int) message b(n: int, s: text)\nactor m {\n  when a(x) if x == 1 within 20 { }\n}\n",
        b"refused script 77 BadSyntax\n",
        b"home:3:23: BadSyntax: `within` stands before `if`: when KIND(..) within 20 if ..\n",
    ),
    (
        b"message a(x: int) message b(n: int, s: text)\nactor m {\n  when a(x) within x { }\n}\n",
        b"refused script 74 BadSyntax\n",
        b"home:3:20: BadSyntax: a number is wanted here: within 20\n",
    ),
    (
        b"message a(x: int) message b(n: int, s: text)\nactor m {\n  when a(x) { print \"until \" x + 300; }\n}\n",
        b"refused script 86 BadSyntax\n",
        b"home:3:32: BadSyntax: a number or a sum in a print stands in parentheses: print \"until \" (t + 300);\n",
    ),
    (
        b"message a(x: int) message b(n: int, s: text)\nactor m {\n  when a(x) { print 7; }\n}\n",
        b"refused script 75 BadSyntax\n",
        b"home:3:21: BadSyntax: a number or a sum in a print stands in parentheses: print \"until \" (t + 300);\n",
    ),
    (
        b"message a(x: int) message b(n: int, s: text)\nactor m {\n  when a(x) { print \"x is \", x; }\n}\n",
        b"refused script 82 BadSyntax\n",
        b"home:3:28: BadSyntax: the items of a print stand one behind the other, without `,`\n",
    ),
    (
        b"message a(x: int) message b(n: int, s: text)\nactor m {\n  when a(x) { print (\"x\"); }\n}\n",
        b"refused script 76 BadSyntax\n",
        b"home:3:22: BadSyntax: a text in a print stands without parentheses\n",
    ),
    (
        b"message a(x: int) message b(n: int, s: text)\nactor m {\n  when a(x) { post a(x); }\n}\n",
        b"refused script 75 BadSyntax\n",
        b"home:3:21: BadSyntax: a post names the actor and then the kind: post ACTOR KIND(..);\n",
    ),
    (
        b"message a(x: int) message b(n: int, s: text)\nactor m {\n  when a(x) { post m a(x; }\n}\n",
        b"refused script 79 BadSyntax\n",
        b"home:3:25: BadSyntax: `,` and a further value, or `)`, is wanted here\n",
    ),
    (
        b"message a(x: int) message b(n: int, s: text)\nactor m {\n  when a(x) { reply x; }\n}\n",
        b"refused script 75 BadSyntax\n",
        b"home:3:21: BadSyntax: the number of a pattern, counted from 1, is wanted here: reply NUMBER value;\n",
    ),
];

// More of them.
const MORE_SCRIPTS: &[Mistake] = &[
    (
        b"message a(x: int) message b(n: int, s: text)\nactor m {\n  when a(x) { reply 1; }\n}\n",
        b"refused script 76 BadSyntax\n",
        b"home:3:22: BadSyntax: the value of the reply is wanted here: reply NUMBER value;\n",
    ),
    (
        b"message a(x: int) message b(n: int, s: text)\nactor m {\n  when a(x) { if x == 1 { stop; } }\n}\n",
        b"refused script 69 BadSyntax\n",
        b"home:3:15: BadSyntax: a body has no `if`: write a definition for each case\n",
    ),
    (
        b"message a(x: int) message b(n: int, s: text)\nactor m {\n  when a(x) { send m a(x); }\n}\n",
        b"refused script 69 BadSyntax\n",
        b"home:3:15: BadSyntax: a statement is wanted here: print .., post ACTOR KIND(..), reply NUMBER value or stop; or the `}` of the body\n",
    ),
    (
        b"message a(x: integer)\nactor m { }\n",
        b"refused script 13 BadSyntax\n",
        b"home:1:14: BadSyntax: the types are `int` and `text`\n",
    ),
    (
        b"message a(x, y: int)\nactor m { }\n",
        b"refused script 11 BadSyntax\n",
        b"home:1:12: BadSyntax: `:` and the type are missing here: NAME: int or NAME: text\n",
    ),
    (
        b"message text(x: int)\nactor m { }\n",
        b"refused script 8 BadSyntax\n",
        b"home:1:9: BadSyntax: this word is a keyword, and no name\n",
    ),
    (
        b"message a(when: int)\nactor m { }\n",
        b"refused script 10 BadSyntax\n",
        b"home:1:11: BadSyntax: this word is a keyword, and no name of a field\n",
    ),
    (
        b"message a(x: int) message b(n: int, s: text)\nactor m {\n  when a(text) { }\n}\n",
        b"refused script 64 BadSyntax\n",
        b"home:3:10: BadSyntax: this word is a keyword, and no variable\n",
    ),
    (
        b"message a(x: int) message b(n: int, s: text)\nactor m {\n  when a(7) { }\n}\n",
        b"refused script 64 BadSyntax\n",
        b"home:3:10: BadSyntax: a pattern has variables alone: name one here, and compare it behind `if`\n",
    ),
    (
        b"message a(x: int) message b(n: int, s: text)\nactor m {\n  when a(x == 7) { }\n}\n",
        b"refused script 66 BadSyntax\n",
        b"home:3:12: BadSyntax: conditions stand behind `if`: when KIND(x) if x == 1\n",
    ),
    (
        b"message a(x: int) message b(n: int, s: text)\nactor m {\n  when a(x) print x; }\n}\n",
        b"refused script 67 BadSyntax\n",
        b"home:3:12: BadSyntax: the `{` of the body is missing here\n",
    ),
    (
        b"message a(x: int) message b(n: int, s: text)\nactor m {\n  when a(x) {\n    print x;\n  when b(n, s) {\n  }\n}\n",
        b"refused script 84 BadSyntax\n",
        b"home:4:13: BadSyntax: the `}` of the body is missing here\n",
    ),
    (
        b"message a(x: int) message b(n: int, s: text)\nactor m {\n  when a(x) {\n  }\nactor n {\n}\n",
        b"refused script 73 BadSyntax\n",
        b"home:4:4: BadSyntax: the `}` of the actor is missing here\n",
    ),
    (
        b"message a(x: int) message b(n: int, s: text)\nactor m {\n  when a(x) {\n  }\n}\n}\n",
        b"refused script 75 BadSyntax\n",
        b"home:6:1: BadSyntax: this `}` is one too many\n",
    ),
    (
        b"when a(x) { }\n",
        b"refused script 0 BadSyntax\n",
        b"home:1:1: BadSyntax: a definition stands in the braces of an actor: actor NAME { when .. }\n",
    ),
    (
        b"message a(x: int)",
        b"refused script 17 BadSyntax\n",
        b"home:1:18: BadSyntax: the script ends too early: `message NAME(field: type, ..)` or `actor NAME { .. }` is wanted here\n",
    ),
    (
        b"message a(x: int) message b(n: int, s: text)\nactor m {\n  when a(x) if x > 21.5 { }\n}\n",
        b"refused script 76 BadToken\n",
        b"home:3:22: BadToken: numbers are whole, and names have no dot: count in a smaller unit\n",
    ),
    (
        b"message a(x: int) message b(n: int, s: text)\nactor m {\n  when a(x) if x * 2 > 5 { }\n}\n",
        b"refused script 72 BadToken\n",
        b"home:3:18: BadToken: there is no product and no quotient, only sums: compute it before the feed is written\n",
    ),
    (
        b"# a comment\nmessage a(x: int) message b(n: int, s: text)\n",
        b"refused script 0 BadToken\n",
        b"home:1:1: BadToken: a comment begins with //\n",
    ),
    (
        b"message a(x: int) message b(n: int, s: text)\nactor m {\n  when b(n, s) if s == 'hall' { }\n}\n",
        b"refused script 78 BadToken\n",
        b"home:3:24: BadToken: a text stands in double quotes: \"hall\"\n",
    ),
    (
        b"message a(x: int) message b(n: int, s: text)\nactor m {\n  when b(n, s) if s == \xE2\x80\x9Chall\xE2\x80\x9D { }\n}\n",
        b"refused script 78 BadToken\n",
        b"home:3:24: BadToken: a text stands in double quotes: \"hall\"\n",
    ),
    (
        b"message a(x: int) message b(n: int, s: text)\nactor m {\n  when a(x) if x = 7 { }\n}\n",
        b"refused script 72 BadToken\n",
        b"home:3:18: BadToken: this is no sign (equal is ==)\n",
    ),
];

// The rest.
const OTHER_SCRIPTS: &[Mistake] = &[
    (
        b"message \xC3\xA9t\xC3\xA9(x: int)\n",
        b"refused script 8 BadToken\n",
        b"home:1:9: BadToken: outside a text in double quotes there are letters of ASCII alone\n",
    ),
    (
        b"message a(x: int) message b(n: int, s: text)\nactor m {\n  when a(x) & a(x) { }\n}\n",
        b"refused script 71 TwiceDeclared\n",
        b"home:3:17: TwiceDeclared: a variable stands once in a definition: name this one otherwise, as x2, and compare them: if x == x2\n",
    ),
    (
        b"message a(x: int) message b(n: int, s: text)\nmessage a(y: int)\nactor m { }\n",
        b"refused script 53 TwiceDeclared\n",
        b"home:2:9: TwiceDeclared: an earlier message has the name a\n",
    ),
    (
        b"message a(x: int) message b(n: int, s: text)\nactor m {\n  when b(n) { }\n}\n",
        b"refused script 62 WrongCount\n",
        b"home:3:8: WrongCount: message b has 2 fields, and here 1 stands\n",
    ),
    (
        b"message a(x: int) message b(n: int, s: text)\nactor m {\n  when a(x) { post m a(); }\n}\n",
        b"refused script 76 WrongCount\n",
        b"home:3:22: WrongCount: message a has 1 field, and here 0 stand\n",
    ),
    (
        b"message a(x: int) message b(n: int, s: text)\nactor m {\n  when b(n, s) if n == \"7\" { }\n}\n",
        b"refused script 78 WrongType\n",
        b"home:3:24: WrongType: the left side is an int, and \"7\" is a text\n",
    ),
    (
        b"message a(x: int) message b(n: int, s: text)\nactor m {\n  when b(n, s) if s == 7 { }\n}\n",
        b"refused script 78 WrongType\n",
        b"home:3:24: WrongType: the left side is a text, and 7 is an int\n",
    ),
    (
        b"message a(x: int) message b(n: int, s: text)\nactor m {\n  when b(n, s) if s < \"b\" { }\n}\n",
        b"refused script 73 WrongType\n",
        b"home:3:19: WrongType: <, <=, > and >= compare ints alone, and s is a text\n",
    ),
    (
        b"message a(x: int) message b(n: int, s: text)\nactor m {\n  when b(n, s) if n == s + 1 { }\n}\n",
        b"refused script 78 WrongType\n",
        b"home:3:24: WrongType: a sum is of ints alone, and s is a text\n",
    ),
    (
        b"message a(x: int) message b(n: int, s: text)\nactor m {\n  when b(n, s) { print (s); }\n}\n",
        b"refused script 79 WrongType\n",
        b"home:3:25: WrongType: a text in a print stands without parentheses, and s is a text\n",
    ),
    (
        b"message a(x: int) message b(n: int, s: text)\nactor m {\n  when b(n, s) { post m b(n, n); }\n}\n",
        b"refused script 84 WrongType\n",
        b"home:3:30: WrongType: the field s of b is a text, and n is an int\n",
    ),
    (
        b"message a(x: int) message b(n: int, s: text)\nactor m {\n  when b(n, s) { post m b(s, s); }\n}\n",
        b"refused script 81 WrongType\n",
        b"home:3:27: WrongType: the field n of b is an int, and s is a text\n",
    ),
    (
        b"message a(x: int) message b(n: int, s: text)\nactor m {\n  when a(x) { reply 2 x; }\n}\n",
        b"refused script 75 BadReply\n",
        b"home:3:21: BadReply: the definition has 1 pattern, so the number is 1\n",
    ),
    (
        b"message a(x: int) message b(n: int, s: text)\nactor m {\n  when a(x) { reply 1 x; reply 1 x; }\n}\n",
        b"refused script 86 BadReply\n",
        b"home:3:32: BadReply: an earlier reply of this body is to the same pattern\n",
    ),
    (
        b"message a(x: int) message b(n: int, s: text)\nactor m {\n  when a(x1) & a(x2) & a(x3) & a(x4) & a(x5) & a(x6) & a(x7) & a(x8) & a(x9) { }\n}\n",
        b"refused script 126 TooMany\n",
        b"home:3:72: TooMany: a definition has at most 8 patterns\n",
    ),
    (
        b"message a(x: int) message b(n: int, s: text)\nactor m {\n  when a(x) { print x x x x x x x x x x x x x x x x x; }\n}\n",
        b"refused script 107 TooMany\n",
        b"home:3:53: TooMany: a print has at most 16 items\n",
    ),
    (
        b"message a(f1: int, f2: int, f3: int, f4: int, f5: int, f6: int, f7: int, f8: int, f9: int)\nactor m { }\n",
        b"refused script 82 TooMany\n",
        b"home:1:83: TooMany: a message has at most 8 fields\n",
    ),
    (
        b"message a(x: int) message b(n: int, s: text)\nactor m {\n  when a(x) within 0 { }\n}\n",
        b"refused script 74 BadWindow\n",
        b"home:3:20: BadWindow: the number of a window is from 1 to 1000000\n",
    ),
    (
        b"message a(x: int) message b(n: int, s: text)\nactor m {\n  when a(x) { stop; print x; }\n}\n",
        b"refused script 69 StopNotLast\n",
        b"home:3:15: StopNotLast: stop has to be the last statement of its body\n",
    ),
    (
        b"message a(x: int) message b(n: int, s: text)\nactor m {\n  when a(x) if rooom == 1 { }\n}\n",
        b"refused script 70 UnknownName\n",
        b"home:3:16: UnknownName: no variable of this definition has the name rooom\n",
    ),
];

// Signs and texts that stand where they may not.
const SIGNS_AND_TEXTS: &[Mistake] = &[
    (
        b"message a(x: int);\nactor m { }\n",
        b"refused script 17 BadSyntax\n",
        b"home:1:18: BadSyntax: `;` ends a statement, and nothing else\n",
    ),
    (
        b"message a(x: int)\nactor m {\n  when a(x) { };\n}\n",
        b"refused script 43 BadSyntax\n",
        b"home:3:16: BadSyntax: `;` ends a statement, and nothing else\n",
    ),
    (
        b"message a(int x)\nactor m { }\n",
        b"refused script 10 BadSyntax\n",
        b"home:1:11: BadSyntax: this word is a type, and no name of a field: NAME: int or NAME: text\n",
    ),
    (
        b"message a(x: int, text: text)\nactor m { }\n",
        b"refused script 18 BadSyntax\n",
        b"home:1:19: BadSyntax: this word is a type, and no name of a field: NAME: int or NAME: text\n",
    ),
    (
        b"actor m {\n  message a(x: int)\n}\n",
        b"refused script 12 BadSyntax\n",
        b"home:1:10: BadSyntax: the `}` of the actor is missing here: messages are declared outside of actors\n",
    ),
    (
        b"message a(x: int)\nactor m {\n  when a(x) if not x == 1 { }\n}\n",
        b"refused script 47 BadSyntax\n",
        b"home:3:20: BadSyntax: `==`, `!=`, `<`, `<=`, `>` or `>=` is wanted here, and `not` is written `!`: !(x == y)\n",
    ),
    (
        b"message a(x: int)\nactor m {\n  when a(x) { print \"x is \" + x; }\n}\n",
        b"refused script 56 BadSyntax\n",
        b"home:3:29: BadSyntax: the items of a print stand one behind the other, without `+`\n",
    ),
    (
        b"message a(x: int)\nactor m {\n  when a(x) { print \"x is ; }\n}\n",
        b"refused script 48 BadToken\n",
        b"home:3:21: BadToken: the `\"` that ends this text is missing on its line\n",
    ),
    (
        b"message a(x: int)\nactor m { when a(x) { print \"x",
        b"refused script 46 BadToken\n",
        b"home:2:29: BadToken: the `\"` that ends this text is missing\n",
    ),
    (
        b"message a(x: int)\nactor m {\n  when a(x) { print \"C:\\data\"; }\n}\n",
        b"refused script 48 BadToken\n",
        b"home:3:21: BadToken: behind \\ this text has none of \" \\ n r t, and no x with two digits of 0-9 a-f\n",
    ),
    (
        b"message a(x: int)\nactor m {\n  when a(x) { print \"a\tb\"; }\n}\n",
        b"refused script 48 BadToken\n",
        b"home:3:21: BadToken: this text has a byte that is written \\t (a tab) or \\x and two digits\n",
    ),
    (
        b"message a(x: int)\nactor m {\n  when a(x) { print \"\\x41\"; }\n}\n",
        b"refused script 48 BadToken\n",
        b"home:3:21: BadToken: this text has \\x for a byte that is written as itself or as one of \\t \\n \\r \\\" \\\\\n",
    ),
    (
        b"message a(x: int)\nactor m {\n  when a(x) { print \"ttttttttttttttttttttttttttttttttttttttttttttttttttttttttttttttttttttttttttttttttttttttttttttttttttttttttttttttttttttttttt\"; }\n}\n",
        b"refused script 48 BadToken\n",
        b"home:3:21: BadToken: a text has at most 120 bytes\n",
    ),
];

/// Mistakes in scripts, in four tables.
pub fn scripts_in_fault() -> &'static [Mistake] {
    SCRIPTS
}

pub fn more_in_fault() -> &'static [Mistake] {
    MORE_SCRIPTS
}

pub fn others_in_fault() -> &'static [Mistake] {
    OTHER_SCRIPTS
}

pub fn signs_in_fault() -> &'static [Mistake] {
    SIGNS_AND_TEXTS
}
