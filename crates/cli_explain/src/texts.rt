// What each fault means: made by tools/faults from docs/faults.

use crate::Meaning;

pub(crate) const OF_CONFIGURATIONS: [Meaning; 32] = [
    Meaning {
        number: 1,
        text: "1: a byte that has no place in a text\n\nA byte outside 32 to 126 that is no tab, line feed, or carriage return directly before a line feed; or a byte that begins no token, such as `$`, `*`, `=` alone, or `-` without a digit after it. Named is the line of the byte.\n\n    PROGRAM C\n    LD TRUE\n    ST OPEN $\n    END_PROGRAM\n\nrefused 1 at line 3\n\nRemove the byte; write comments in ASCII.\n\n    PROGRAM C\n    LD TRUE\n    ST OPEN\n    END_PROGRAM\n",
    },
    Meaning {
        number: 2,
        text: "2: a comment that is open\n\nA `(*` that no `*)` closes, at the line of that `(*`; or a `(*` inside a comment, at the line of the inner one.\n\n    PROGRAM C\n    (* first (* second *)\n    END_PROGRAM\n\nrefused 2 at line 2\n\nClose the comment; don't put one comment in another.\n\n    PROGRAM C\n    (* first, second *)\n    END_PROGRAM\n",
    },
    Meaning {
        number: 3,
        text: "3: a number or a typed literal that is not well formed\n\nNamed is the line of the literal. A word directly before `#` always begins a typed literal.\n\n    PROGRAM C\n    LD 1__0\n    END_PROGRAM\n\nrefused 3 at line 2\n\nWrite one underscore at most between digits; give a duration at least one part, its units in the order d, h, m, s, ms, and whole numbers: `T#3s500ms`, not `T#3.5s`.\n\n    PROGRAM C\n    LD 1_0\n    END_PROGRAM\n",
    },
    Meaning {
        number: 4,
        text: "4: a number or a typed literal that is too large\n\nOver 4294967295 in size for a number, outside its type for a typed number, over 2147483647 ms for a duration. Named is the line of the literal. A number without a type that only its place can't hold is 22, 23 or 31.\n\n    PROGRAM C\n    LD SINT#200\n    END_PROGRAM\n\nrefused 4 at line 2\n\nWrite a smaller value.\n\n    PROGRAM C\n    LD SINT#100\n    END_PROGRAM\n",
    },
    Meaning {
        number: 5,
        text: "5: a word that is no identifier\n\nTwo underscores side by side, one at the end, one alone, or more than 32 characters. Named is the line of the word.\n\n    PROGRAM C\n    VAR\n    DOOR__OPEN : BOOL;\n    END_VAR\n    END_PROGRAM\n\nrefused 5 at line 3\n\nRename it.\n\n    PROGRAM C\n    VAR\n    DOOR_OPEN : BOOL;\n    END_VAR\n    END_PROGRAM\n",
    },
    Meaning {
        number: 6,
        text: "6: a text that is too long\n\nMore than 262144 bytes. The line is always 1, and nothing else of the text is checked.\n\n    PROGRAM C\n    (* up *)         (* and 29999 more such lines, up to line 30001 *)\n    END_PROGRAM\n\nrefused 6 at line 1\n\nShorten the text, for example its comments.\n",
    },
    Meaning {
        number: 10,
        text: "10: an unexpected token\n\nNamed is the line of the first token with which no text of the language goes on; a missing token at the end of the text is at the end's line. A reserved word where a name must be is 10.\n\n    PROGRAM C\n    LD TRUE\n    AND\n    END_PROGRAM\n\nrefused 10 at line 3\n\nCompare the line with the grammar in `LANGUAGE.md`. A line end is a token with the line that it ends: a missing operand is named at the operator's line, and a second operand at its own.\n\n    PROGRAM C\n    LD TRUE\n    AND LEVEL\n    END_PROGRAM\n",
    },
    Meaning {
        number: 11,
        text: "11: parentheses too deep\n\nAn operator opens a 17th parenthesis inside sixteen that are open. Named is the line of that operator. With `PROGRAM C` in line 1 and `LD 1` in line 2:\n\n    PROGRAM C\n    LD 1\n    ADD( 1           (* and 15 more such lines, up to line 18 *)\n    ADD( 1           (* line 19 *)\n\n`refused 11 at line 19`. Store what is between, and use it by its name.\n",
    },
    Meaning {
        number: 12,
        text: "12: too many units, instructions or slots\n\nA unit has more than 4096 instructions. Named is the line of the operator of the 4097th, whatever follows it. A text with more than 64 units is 12 at the heading of the 65th. With `PROGRAM C` in line 1 and an instruction in each line from line 2 on:\n\n    PROGRAM C\n    LD TRUE          (* and 4095 more such lines, up to line 4097 *)\n    LD TRUE          (* line 4098 *)\n    END_PROGRAM\n\n`refused 12 at line 4098`. Shorten the program.\n\n12 is also the fault of a task with more than 4096 slots: each scalar variable of its program takes one, an array one for each element, an instance those of its block's variables, and each function that the program uses, directly or through others, once those of its variables and one for its result. The globals have 4096 slots too; named is then the line of their VAR_GLOBAL. It is found after types, and named is the task's PROGRAM line. A program of 4097 variables in lines 2 to 259, with an empty body, has END_PROGRAM in line 260 and its PROGRAM line in line 265: `refused 12 at line 265`. Declare fewer variables.\n",
    },
    Meaning {
        number: 20,
        text: "20: a name declared twice\n\nA name that another declaration of its kind has, or that is predeclared. Letter case has no meaning.\n\n| line | cause |\n|---|---|\n| of a heading | a function, a function block or a program with a predeclared name, or with that of a unit before it |\n| of the variable | a variable of a unit with a predeclared name, the name of any unit, or that of an earlier variable of its unit |\n| of the variable | a global with a predeclared name, the name of any unit, or that of an earlier global |\n| of the label | a label with the name of an earlier one in its body |\n| of the TASK line, of the PROGRAM line | one with the name of an earlier one |\n\n    PROGRAM C\n    VAR\n    DOOR : BOOL;\n    Door : BOOL;\n    END_VAR\n    END_PROGRAM\n\nrefused 20 at line 4\n\nRename one of them.\n\n    PROGRAM C\n    VAR\n    DOOR : BOOL;\n    REAR_DOOR : BOOL;\n    END_VAR\n    END_PROGRAM\n",
    },
    Meaning {
        number: 21,
        text: "21: an unknown name\n\nA name that means nothing which its place takes.\n\n| line | cause |\n|---|---|\n| of the instruction | among its names one that is no variable of the unit and no image name that the unit sees; a function that is neither standard nor own; after a dot a word that is no output of the instance, or, where it is stored into, neither output nor input |\n| of the type | a name that is no block's |\n| of the name | an external that is no global |\n\nOnly programs see image names, each those of its role: a car's program CARNO, POS, LEVEL, TOP, BOTTOM, LOCKED, OPENED, MOTOR, OPEN and SERVE, that of GROUP CPOS, CMOTOR and ASSIGN, both the others.\n\n    PROGRAM C\n    LD TRUE\n    ST DOOR\n    END_PROGRAM\n\nrefused 21 at line 3\n\nDeclare the variable, or correct its name.\n\n    PROGRAM C\n    VAR\n    DOOR : BOOL;\n    END_VAR\n    LD TRUE\n    ST DOOR\n    END_PROGRAM\n",
    },
    Meaning {
        number: 22,
        text: "22: an empty subrange\n\nThe lower limit of a subrange is above the upper one, or one of them lies outside its base; or so with the bounds of an array, which are INT, or an array has more than 256 elements. Named is the line of the type.\n\n    PROGRAM C\n    VAR\n    V : INT (5..4);\n    END_VAR\n    END_PROGRAM\n\nrefused 22 at line 3\n\nWrite the smaller limit first, and both within the base. A subrange of one value, such as `INT (5..5)`, is good.\n\n    PROGRAM C\n    VAR\n    V : INT (4..5);\n    END_VAR\n    END_PROGRAM\n",
    },
    Meaning {
        number: 23,
        text: "23: an initial value or a size outside its range\n\nAn initial value lies outside the subrange, or outside the type where there is none. Named is the line of the value.\n\n    PROGRAM C\n    VAR\n    V : INT (0..9) := 10;\n    END_VAR\n    END_PROGRAM\n\nrefused 23 at line 3\n\nWrite a value within the subrange, or widen it.\n\n    PROGRAM C\n    VAR\n    V : INT (0..9) := 9;\n    END_VAR\n    END_PROGRAM\n",
    },
    Meaning {
        number: 24,
        text: "24: a wrong task\n\n| line | cause |\n|---|---|\n| of the program's heading | no PROGRAM line names the program |\n| of the TASK line | the task is not GROUP and not one of CAR1 to CARn, n being CARS (`CAR01` is none) |\n| of the PROGRAM line | its task has no TASK line, or an earlier PROGRAM line; what it names is no program, or one that an earlier line gives to a task of the other role |\n| of END_RESOURCE | a car has no TASK line, or a task has no PROGRAM line |\n\n    PROGRAM C\n    END_PROGRAM\n    CONFIGURATION K\n    VAR_GLOBAL CONSTANT CARS : INT := 2; FLOORS : INT := 2; SLOTS : INT := 1; END_VAR\n    RESOURCE M ON PLC\n    TASK CAR1 (INTERVAL := T#100ms, PRIORITY := 1);\n    PROGRAM P1 WITH CAR1 : C;\n    END_RESOURCE\n    END_CONFIGURATION\n\nrefused 24 at line 8\n\nThere is no task CAR2: add it, with a PROGRAM line, or write CARS 1.\n\n    PROGRAM C\n    END_PROGRAM\n    CONFIGURATION K\n    VAR_GLOBAL CONSTANT CARS : INT := 2; FLOORS : INT := 2; SLOTS : INT := 1; END_VAR\n    RESOURCE M ON PLC\n    TASK CAR1 (INTERVAL := T#100ms, PRIORITY := 1);\n    TASK CAR2 (INTERVAL := T#100ms, PRIORITY := 1);\n    PROGRAM P1 WITH CAR1 : C;\n    PROGRAM P2 WITH CAR2 : C;\n    END_RESOURCE\n    END_CONFIGURATION\n",
    },
    Meaning {
        number: 25,
        text: "25: another type than its place asks for\n\n| line | cause |\n|---|---|\n| of the value | an initial value of another kind or of another written type, such as TRUE or `SINT#5` for an INT; one of an array or of an instance. Whether the value would lie in the range doesn't matter |\n| of the type | a subrange of BOOL or TIME; an array or an instance among inputs, outputs or the variables of a function; an instance among externals or globals; an external whose type is not its global's |\n| of the instruction | an array without an index, an index on what is no array, CAL of what is no instance |\n\n    PROGRAM C\n    VAR\n    V : INT := TRUE;\n    END_VAR\n    END_PROGRAM\n\nrefused 25 at line 3\n\nWrite a literal of the variable's type: TRUE or FALSE for a BOOL; for an INT a number alone, or one with `INT#` before it.\n\n    PROGRAM C\n    VAR\n    V : INT := 1;\n    END_VAR\n    END_PROGRAM\n",
    },
    Meaning {
        number: 30,
        text: "30: a wrong kind\n\nBOOL, the integer types and TIME are three kinds, and an instruction asks for one and is given another:\n\n- a store of one kind into another; STN, S and R take BOOL alone;\n- NOT, LDN, AND, OR, XOR and their negated forms take BOOL alone; ADD, SUB, MIN, MAX and LIMIT an integer type or TIME; MUL, DIV, MOD, ABS and the conversions integer types; GT, GE, LE and LT no BOOL;\n- JMPC, JMPCN, CALC, CALCN, RETC and RETCN take a BOOL as the current result, and SEL as its first argument;\n- an operand or an argument of another kind than the current result, or than the input that it is given to.\n\n    PROGRAM C\n    VAR\n    V : INT;\n    END_VAR\n    LD TRUE\n    ST V\n    END_PROGRAM\n\nrefused 30 at line 6\n\nNothing is converted: load and store values of one kind.\n\n    PROGRAM C\n    VAR\n    V : BOOL;\n    END_VAR\n    LD TRUE\n    ST V\n    END_PROGRAM\n",
    },
    Meaning {
        number: 31,
        text: "31: another type of the same kind\n\nAn integer type meets another, or a number without a type doesn't fit: after LD, in parentheses and in SEL neither INT nor DINT has it, elsewhere the type of the current result or of the input doesn't.\n\n    PROGRAM C\n    LD 1\n    ADD 32768\n    END_PROGRAM\n\nrefused 31 at line 3\n\nThe result of `LD 1` is an INT, and 32768 is none. Write a smaller number, or one type throughout, as `LD DINT#1`. A subrange has the type of its base, so it is never 31 against INT.\n\n    PROGRAM C\n    LD 1\n    ADD 32766\n    END_PROGRAM\n",
    },
    Meaning {
        number: 32,
        text: "32: no current result\n\nAn instruction needs the current result and there is none: at the beginning of a body, after a CAL, an unconditional JMP's label, or where paths with different types meet.\n\n    PROGRAM C\n    NOT\n    ST OPEN\n    END_PROGRAM\n\nrefused 32 at line 2\n\nBegin the program with LD or LDN. What can be checked without a result still is, and the lowest number is named: `AND 5` as a first instruction is 30.\n\n    PROGRAM C\n    LD LEVEL\n    NOT\n    ST OPEN\n    END_PROGRAM\n",
    },
    Meaning {
        number: 33,
        text: "33: a name that is only read\n\nA store or an output into a name of the image that a program only reads (LANGUAGE.md lists them), into an input of the body's own unit, or into an output of an instance.\n\n    PROGRAM C\n    LD TRUE\n    ST LEVEL\n    END_PROGRAM\n\nrefused 33 at line 3\n\nStore into a variable, or into OPEN. With `LD 1` instead, the wrong kind goes first: 30.\n\n    PROGRAM C\n    LD TRUE\n    ST OPEN\n    END_PROGRAM\n",
    },
    Meaning {
        number: 34,
        text: "34: an unknown label\n\nA JMP, JMPC or JMPCN to a label that its body lacks.\n\n    PROGRAM C\n    LD TRUE\n    JMPC DONE\n    ST OPEN\n    END_PROGRAM\n\nrefused 34 at line 3\n\nWrite `DONE:` before an instruction after the jump, or alone in the last line of the body.\n\n    PROGRAM C\n    LD TRUE\n    JMPC DONE\n    ST OPEN\n    DONE:\n    END_PROGRAM\n",
    },
    Meaning {
        number: 35,
        text: "35: a jump that does not go forward\n\nThe label is at the jump itself or before it. So that each scan ends, jumps go forward alone.\n\n    PROGRAM C\n    AGAIN: LD TRUE\n    JMPC AGAIN\n    END_PROGRAM\n\nrefused 35 at line 3\n\nWhat is to be repeated is repeated by the next scan; keep what it needs in variables.\n\n    PROGRAM C\n    LD TRUE\n    END_PROGRAM\n",
    },
    Meaning {
        number: 37,
        text: "37: wrong arguments\n\nA standard function or an own one with another number of operands than it takes (the current result is its first argument); in a CAL a word that is no input or output of the block, an input before `=>` or an output with `:=`, or a word that is given twice.\n\n    PROGRAM C\n    LD 1\n    LIMIT 2\n    END_PROGRAM\n\nrefused 37 at line 3\n\nLoad the lower end, and write the value and the upper end after LIMIT: `LD 0` and `LIMIT V, 9`.\n\n    PROGRAM C\n    LD 0\n    LIMIT 2, 9\n    END_PROGRAM\n",
    },
    Meaning {
        number: 38,
        text: "38: a global that two tasks write\n\nPrograms of two tasks store into one global, wherever the stores are; a program that two tasks run counts twice. Named is the first store in the text into such a global.\n\n    PROGRAM C\n    VAR_EXTERNAL\n    G : INT;\n    END_VAR\n    LD 1\n    ST G\n    END_PROGRAM\n    CONFIGURATION K\n    VAR_GLOBAL CONSTANT CARS : INT := 2; FLOORS : INT := 2; SLOTS : INT := 1; END_VAR\n    VAR_GLOBAL G : INT; END_VAR\n    RESOURCE M ON PLC\n    TASK CAR1 (INTERVAL := T#100ms, PRIORITY := 1);\n    TASK CAR2 (INTERVAL := T#100ms, PRIORITY := 1);\n    PROGRAM P1 WITH CAR1 : C;\n    PROGRAM P2 WITH CAR2 : C;\n    END_RESOURCE\n    END_CONFIGURATION\n\nrefused 38 at line 6\n\nLet one task write it, or give each task a global of its own.\n\n    PROGRAM C\n    VAR_EXTERNAL\n    G : INT;\n    END_VAR\n    LD 1\n    ST G\n    END_PROGRAM\n    PROGRAM D\n    END_PROGRAM\n    CONFIGURATION K\n    VAR_GLOBAL CONSTANT CARS : INT := 2; FLOORS : INT := 2; SLOTS : INT := 1; END_VAR\n    VAR_GLOBAL G : INT; END_VAR\n    RESOURCE M ON PLC\n    TASK CAR1 (INTERVAL := T#100ms, PRIORITY := 1);\n    TASK CAR2 (INTERVAL := T#100ms, PRIORITY := 1);\n    PROGRAM P1 WITH CAR1 : C;\n    PROGRAM P2 WITH CAR2 : D;\n    END_RESOURCE\n    END_CONFIGURATION\n",
    },
    Meaning {
        number: 39,
        text: "39: an instruction that no control path reaches\n\nEach instruction is reached from the beginning of its body, for some outcome of the conditions. After an unconditional JMP or RET there must be a label to which a jump leads.\n\n    PROGRAM C\n    LD TRUE\n    JMP DONE\n    LD FALSE\n    DONE: LD TRUE\n    END_PROGRAM\n\nrefused 39 at line 4\n\nTake it out, or make the jump conditional. An instruction there that needs a result is 32, the lower number.\n\n    PROGRAM C\n    LD TRUE\n    JMPC DONE\n    LD FALSE\n    DONE: LD TRUE\n    END_PROGRAM\n",
    },
    Meaning {
        number: 36,
        text: "36: a unit that uses itself\n\nDirectly or through others. Named is its heading.\n\n    FUNCTION G : INT\n    VAR_INPUT A : INT; END_VAR\n    LD A\n    G\n    ST G\n    END_FUNCTION\n    PROGRAM C\n    END_PROGRAM\n\nrefused 36 at line 1\n\nTake the use out; the standard has no recursion (2.5).\n\n    FUNCTION G : INT\n    VAR_INPUT A : INT; END_VAR\n    LD A\n    ST G\n    END_FUNCTION\n    PROGRAM C\n    END_PROGRAM\n",
    },
    Meaning {
        number: 46,
        text: "46: a chain of uses that is too long\n\nA unit with a chain of more than 16 units, itself counted, of which each uses the next and none is named twice. Named is its heading; where the unit uses itself too, 36 is named.\n\n    FUNCTION F1 : INT\n    VAR_INPUT A : INT; END_VAR\n    LD A\n    F2\n    ST F1\n    END_FUNCTION     (* and 15 more such functions, F2 to F16: F2 uses F3, and so on *)\n    FUNCTION F17 : INT\n    VAR_INPUT A : INT; END_VAR\n    LD A\n    ST F17\n    END_FUNCTION\n    PROGRAM C\n    END_PROGRAM\n\nrefused 46 at line 1\n\nLet functions and blocks use one another less deep. Without the line `F17` in F16 the chain has 16 units, and the text is accepted.\n",
    },
    Meaning {
        number: 40,
        text: "40: a result that may leave its type\n\nThe range of a sum, a difference, a product, a quotient, an absolute value or a conversion doesn't lie in the type of the result.\n\nA difference of two times is refused too, such as NOW less a time that was stored: by their ranges it may be below 0, and a TIME isn't. To measure a time call a TON: its ET is how long its IN has been TRUE, up to PT.\n\n    PROGRAM C\n    VAR\n    V : INT;\n    END_VAR\n    LD V\n    ADD 1\n    ST V\n    END_PROGRAM\n\nrefused 40 at line 6\n\nV may be 32767. Declare a subrange, so that the sum fits, or hold the operand back with LIMIT before the sum.\n\n    PROGRAM C\n    VAR\n    V : INT (0..9); W : INT;\n    END_VAR\n    LD V\n    ADD 1\n    ST W\n    END_PROGRAM\n",
    },
    Meaning {
        number: 41,
        text: "41: a divisor that may be 0\n\n    PROGRAM C\n    VAR\n    D : INT (0..9); V : INT;\n    END_VAR\n    LD 7\n    DIV D\n    ST V\n    END_PROGRAM\n\nrefused 41 at line 6\n\nD may be 0. Declare its range without 0, or divide by a variable of INT (1..9) into which `LD D`, `MAX 1` and ST store. Or jump over the division: after `LD D`, `EQ 0` and `JMPC L` D is 1 to 9.\n\n    PROGRAM C\n    VAR\n    D : INT (1..9); V : INT;\n    END_VAR\n    LD 7\n    DIV D\n    ST V\n    END_PROGRAM\n",
    },
    Meaning {
        number: 42,
        text: "42: an index that may lie outside of its array\n\n    PROGRAM C\n    VAR\n    A : ARRAY [1..8] OF INT; I : INT (0..8); V : INT;\n    END_VAR\n    LD A[I]\n    ST V\n    END_PROGRAM\n\nrefused 42 at line 5\n\nI may be 0. Declare `I : INT (1..8)`.\n\n    PROGRAM C\n    VAR\n    A : ARRAY [1..8] OF INT; I : INT (1..8); V : INT;\n    END_VAR\n    LD A[I]\n    ST V\n    END_PROGRAM\n",
    },
    Meaning {
        number: 43,
        text: "43: a stored value that may leave its variable's range\n\nThe range of the current result doesn't lie in the declared range of the variable, element, global, image name or input of an instance into which ST stores it.\n\n    PROGRAM C\n    VAR\n    V : INT (0..9);\n    END_VAR\n    LD V\n    ADD 1\n    ST V\n    END_PROGRAM\n\nrefused 43 at line 7\n\nThe sum is 1 to 10. Hold it back with LIMIT. LIMIT takes what it limits as an operand, so store the sum first, with `NEXT : INT (0..10)` declared too:\n\n    PROGRAM C\n    VAR\n    V : INT (0..9); NEXT : INT (0..10);\n    END_VAR\n    LD V\n    ADD 1\n    ST NEXT\n    LD 0\n    LIMIT NEXT, 9\n    ST V\n    END_PROGRAM\n",
    },
    Meaning {
        number: 44,
        text: "44: an argument that may leave its input's range\n\nThe range of an argument doesn't lie in the declared range of its input; or, after `=>`, the declared range of an output not in that of the variable that takes it.\n\n    FUNCTION F : INT (1..10)\n    VAR_INPUT\n    A : INT (0..9);\n    END_VAR\n    LD A\n    ADD 1\n    ST F\n    END_FUNCTION\n    PROGRAM C\n    VAR\n    X : INT;\n    END_VAR\n    LD 10\n    F\n    ST X\n    END_PROGRAM\n\nrefused 44 at line 14\n\nA takes 0 to 9.\n\n    FUNCTION F : INT (1..10)\n    VAR_INPUT\n    A : INT (0..9);\n    END_VAR\n    LD A\n    ADD 1\n    ST F\n    END_FUNCTION\n    PROGRAM C\n    VAR\n    X : INT;\n    END_VAR\n    LD 9\n    F\n    ST X\n    END_PROGRAM\n",
    },
    Meaning {
        number: 50,
        text: "50: a unit that costs too much\n\nA control path of the unit costs more than 1000000, as `LANGUAGE.md` counts under *The scan*, with the units that it calls. Named is the heading of the first such unit.\n\n    FUNCTION F : INT\n    VAR_INPUT A : INT; END_VAR\n    LD A             (* and 1997 more such lines, up to line 2000 *)\n    ST F\n    END_FUNCTION\n    PROGRAM C\n    LD 1\n    F                (* and 499 more such lines, up to line 2504 *)\n    END_PROGRAM\n\nrefused 50 at line 2003\n\nF costs 2000, and a call of it 2001; so C costs 1000502. Call less in a row: one scan can do a part of the work, and the next one the rest. With 499 calls C costs 998501, and the text is accepted.\n",
    },
];

pub(crate) const OF_RUNS: [Meaning; 19] = [
    Meaning {
        number: 60,
        text: "60: a field out of range\n\nRefresh with another number of cars than CARS, a POS not from 1 to FLOORS, NOW over 2147483647, or RUNLIMIT over CARS. In the state of a trace: a NOW, RUNLIMIT or CAR line with such a number.\n\n    LIFTTRACE 2\n    R 100 1 0 3 10110\n    S 1\n    C 1\n    E 3\n\nrefused 60 at line 2\n\nHand in fields in range. The group has 2 floors:\n\n    LIFTTRACE 2\n    R 100 1 0 2 11010\n    S 1\n    C 1\n    E 3\n",
    },
    Meaning {
        number: 61,
        text: "61: no open scan\n\nInstruction or Commit without an open scan, or Instruction after its end.\n\n    LIFTTRACE 2\n    R 100 1 0 1 10110\n    C 1\n    E 2\n\nrefused 61 at line 3\n\nStart first; stop at the reply End. In a trace each C line has an S line of its task before it:\n\n    LIFTTRACE 2\n    R 100 1 0 1 10110\n    S 1\n    C 1\n    E 3\n",
    },
    Meaning {
        number: 62,
        text: "62: a scan that is open already\n\nStart while a scan of the task is open.\n\n    LIFTTRACE 2\n    R 100 1 0 1 10110\n    S 1\n    S 1\n    C 1\n    E 4\n\nrefused 62 at line 4\n\nCommit first:\n\n    LIFTTRACE 2\n    R 100 1 0 1 10110\n    S 1\n    C 1\n    S 1\n    C 1\n    E 5\n",
    },
    Meaning {
        number: 63,
        text: "63: a scan that has not ended\n\nCommit before the scan's end.\n\n    world.apply(&Event::Start(1), &mut report);\n    world.apply(&Event::Commit(1), &mut report)\n\nReply::Refused(EventFault::NotAtEnd)\n\nRun instructions up to the reply End. `finish` does so:\n\n    world.apply(&Event::Start(1), &mut report);\n    world.finish(1)?;\n    world.apply(&Event::Commit(1), &mut report)\n",
    },
    Meaning {
        number: 64,
        text: "64: no such task or floor\n\nA task that the group lacks, tested before 61 to 63; Press or Gather with a floor that is not from 1 to FLOORS. In the state of a trace: a SLOT line with a floor or a car that the group hasn't.\n\n    LIFTTRACE 2\n    R 100 1 0 1 10110\n    S 2\n    C 2\n    E 3\n\nrefused 64 at line 3\n\nUse 0 for GROUP, k for CARk, and floors of the group. This one has CAR1 alone:\n\n    LIFTTRACE 2\n    R 100 1 0 1 10110\n    S 1\n    C 1\n    E 3\n",
    },
    Meaning {
        number: 65,
        text: "65: a call to its own floor\n\nPress with the same floor twice. In the state of a trace: a SLOT line with a call from a floor to itself.\n\n    LIFTTRACE 2\n    P 2 2\n    G 2\n    R 100 1 0 1 10110\n    E 3\n\nrefused 65 at line 2\n\nPress for another floor:\n\n    LIFTTRACE 2\n    P 2 1\n    G 2\n    R 100 1 0 1 10110\n    E 3\n",
    },
    Meaning {
        number: 70,
        text: "70: the journal is full\n\nA start, a commit or a refresh of a station whose journal has no room for another entry. It changes nothing, and so do all later ones: motors and doors keep their last command. The room is what the station was opened with. `liftplc` itself ends with `no memory` where a run can't have its journal.\n\n    let (station, passes, refresher) = Station::<G>::new(alloc, blanks, verified, 1)?;\n    ..\n    let (pass, begun) = station.start(rt, pass);\n    ..\n    let (pass, done) = station.commit_ours(rt, pass, station.scan(begun), &mut report);\n\ndone is Err((StationFault::JournalFull, _))\n\nClose the station in time: close gives the journal. Open the next one with as many entries as the run makes: two for each scan, and one for each refresh. For this one scan:\n\n    let (station, passes, refresher) = Station::<G>::new(alloc, blanks, verified, 2)?;\n",
    },
    Meaning {
        number: 71,
        text: "71: this scan is not open\n\nA commit at a station of a scan that is not the one its book has open for the task: another task's, another configuration's, one that began with other values, or one whose task has no open scan. It changes nothing.\n\n    let (first, begun) = station.start(rt, first);\n    ..\n    let (second, done) = station.commit_ours(rt, second, station.scan(begun), &mut report);\n\ndone is Err((StationFault::NotOpen, _))\n\nCommit each scan once, at the station where it was started. Here `first` is the pass of the task that started it:\n\n    let (first, begun) = station.start(rt, first);\n    ..\n    let (first, done) = station.commit_ours(rt, first, station.scan(begun), &mut report);\n",
    },
    Meaning {
        number: 72,
        text: "72: a scan of the task is open\n\nA start at a station where the last scan of the task was started and not committed. It changes nothing.\n\n    let (pass, begun) = station.start(rt, pass);\n    let (pass, again) = station.start(rt, pass);\n\nagain is Err(StationFault::AlreadyOpen)\n\nCommit the scan before the next start. A scan that was dropped without a commit leaves its task at 72.\n\n    let (pass, begun) = station.start(rt, pass);\n    ..\n    let (pass, done) = station.commit_ours(rt, pass, station.scan(begun), &mut report);\n    let (pass, again) = station.start(rt, pass);\n",
    },
    Meaning {
        number: 80,
        text: "80: a wrong line in a trace\n\nThe line is complete and has none of the forms of the trace's format, which `TRACE.md` shows. An R line has as many cars as CARS says, and has no FIRE in format 1. In format 3 a state comes between the first line and the events. Its lines have one order: one that isn't the line that has to come there, or that has another number than the next car or slot, is 80. The number of the E line is that of the lines of events. Nothing may follow a right E line, not even a piece without a line feed. A trace of more than 67108864 bytes is 80 at line 1.\n\n    LIFTTRACE 2\n    R 100 1 1 10110\n    S 1\n    C 1\n    E 3\n\nrefused 80 at line 2\n\nThe R line is one of format 1. In format 2 FIRE comes after RUNLIMIT:\n\n    LIFTTRACE 2\n    R 100 1 0 1 10110\n    S 1\n    C 1\n    E 3\n",
    },
    Meaning {
        number: 81,
        text: "81: a trace that ends too early\n\nThe text ends before its E line is complete, or in the state of a trace of format 3. A line without its line feed isn't complete, whatever it says. Reported is the line where the text ends: 1 plus the number of its line feeds.\n\n    LIFTTRACE 2\n    R 100 1 0 1 10110\n    S 1\n    C 1\n\nrefused 81 at line 5\n\nIf a part of the trace was lost, copy the trace again. A trace that was cut off is read up to its last whole line with --cut. Otherwise end it with the E line and the number of the lines between:\n\n    LIFTTRACE 2\n    R 100 1 0 1 10110\n    S 1\n    C 1\n    E 3\n",
    },
    Meaning {
        number: 82,
        text: "82: the trace can't be written\n\nThe sink to which a trace is written took no more; a beginning of the trace is in it. `liftplc` prints `cannot write` for it, and ends with status 3.\n\n    $ ./liftplc sim examples/idle.il 2 >/dev/full\n\ncannot write\n\nGive the trace room: on the disk, or in what reads the pipe.\n",
    },
    Meaning {
        number: 83,
        text: "83: a wrong line in a file of calls\n\nThe line is none of `ROUND FROM TO`, `ROUND FROM TO PANEL`, `ROUND FIRE on`, `ROUND FIRE off` and `ROUND LIMIT N`, with spaces or tabs between its words. ROUND is a round of the run, FROM and TO are two different floors of the group, PANEL is from 1 to 4, and N is from 0 to CARS: ASCII digits alone. FIRE, LIMIT, on and off are written as here. An empty line, and one whose first word begins with `#`, say nothing.\n\n    # 8:00 to 8:05\n    1 1 5\n    120 3 3\n    150 FIRE on\n\nrefused 83 at line 3\n\nFROM and TO are the same floor. Name the one that the passenger goes to:\n\n    # 8:00 to 8:05\n    1 1 5\n    120 3 4\n    150 FIRE on\n",
    },
    Meaning {
        number: 84,
        text: "84: a file of calls that is too long\n\nThe file has more than 100000 lines, or more than 4000000 bytes. Reported is the line at which it is too much: line 100001, or the one of byte 4000001. Bytes are counted before a line is read.\n\nA file that has `1 1 2` in each line, and nothing else:\n\n    1 1 2            (and 99999 more such lines, up to line 100000)\n    1 1 2            (line 100001)\n\nrefused 84 at line 100001\n\nGive the run fewer calls, or take lines out that say nothing. A run of 50000 rounds with two calls in each is at the limit.\n",
    },
    Meaning {
        number: 85,
        text: "85: the state is that of another configuration\n\nThe digits after CONFIGURATION are not the SHA-256 of the text of FILE. Every byte of the text counts, comments too.\n\n    LIFTTRACE 3\n    CONFIGURATION 3f0c0a9d5b6c1c5f4e9a2a5f6b0c5a1d7e8f90a1b2c3d4e5f60718293a4b5c6d\n    NOW 300\n    RUNLIMIT 1\n    FIRE FALSE\n    CAR 1 1 10110 0 0\n    TICKETS 1\n    SLOT 1 WAITING 1 1 2\n    EVENTS\n    R 400 1 0 1 10110\n    S 1\n    C 1\n    E 3\n\nrefused 85 at line 2\n\nGive the command the text under which the state was written. These are the digits of the configuration above, with an empty program C:\n\n    LIFTTRACE 3\n    CONFIGURATION 1264bc52aefc6fc1b537aadf1988bf5a128409d3dbef3af44bb83ec2169af7a5\n    NOW 300\n    RUNLIMIT 1\n    FIRE FALSE\n    CAR 1 1 10110 0 0\n    TICKETS 1\n    SLOT 1 WAITING 1 1 2\n    EVENTS\n    R 400 1 0 1 10110\n    S 1\n    C 1\n    E 3\n",
    },
    Meaning {
        number: 86,
        text: "86: the outputs do not obey the interlock\n\nIn a state a car has a motor or an open command that the interlock forbids under its fields, RUNLIMIT and FIRE (`LANGUAGE.md`, *Interlock*). Reported is the line of the first such car, once all CAR lines are read.\n\n    LIFTTRACE 3\n    CONFIGURATION 1264bc52aefc6fc1b537aadf1988bf5a128409d3dbef3af44bb83ec2169af7a5\n    NOW 300\n    RUNLIMIT 1\n    FIRE FALSE\n    CAR 1 1 10100 1 0\n    TICKETS 1\n    SLOT 1 WAITING 1 1 2\n    EVENTS\n    R 400 1 0 1 10110\n    S 1\n    C 1\n    E 3\n\nrefused 86 at line 6\n\nThe motor runs while the door is not LOCKED. In a state that `serve` writes every output is still:\n\n    LIFTTRACE 3\n    CONFIGURATION 1264bc52aefc6fc1b537aadf1988bf5a128409d3dbef3af44bb83ec2169af7a5\n    NOW 300\n    RUNLIMIT 1\n    FIRE FALSE\n    CAR 1 1 10100 0 0\n    TICKETS 1\n    SLOT 1 WAITING 1 1 2\n    EVENTS\n    R 400 1 0 1 10110\n    S 1\n    C 1\n    E 3\n",
    },
    Meaning {
        number: 87,
        text: "87: no slot can have this ticket\n\nIn a state a SLOT line has the ticket 0, a ticket above that of the TICKETS line, or that of an earlier slot.\n\n    LIFTTRACE 3\n    CONFIGURATION 1264bc52aefc6fc1b537aadf1988bf5a128409d3dbef3af44bb83ec2169af7a5\n    NOW 300\n    RUNLIMIT 1\n    FIRE FALSE\n    CAR 1 1 10110 0 0\n    TICKETS 0\n    SLOT 1 WAITING 1 1 2\n    EVENTS\n    R 400 1 0 1 10110\n    S 1\n    C 1\n    E 3\n\nrefused 87 at line 8\n\nTICKETS is the last ticket that was given, so no call has a greater one:\n\n    LIFTTRACE 3\n    CONFIGURATION 1264bc52aefc6fc1b537aadf1988bf5a128409d3dbef3af44bb83ec2169af7a5\n    NOW 300\n    RUNLIMIT 1\n    FIRE FALSE\n    CAR 1 1 10110 0 0\n    TICKETS 1\n    SLOT 1 WAITING 1 1 2\n    EVENTS\n    R 400 1 0 1 10110\n    S 1\n    C 1\n    E 3\n",
    },
    Meaning {
        number: 88,
        text: "88: no line of this variable can stand here\n\nIn a state a VAR line names a variable that the configuration hasn't, or one whose line came already or comes out of order, or gives a variable its initial value. The globals come first, in the order of the text, then the variables of GROUP, and those of CAR1 and so on, each in the order of its program. A variable that has its initial value has no line.\n\n    LIFTTRACE 3\n    CONFIGURATION 1264bc52aefc6fc1b537aadf1988bf5a128409d3dbef3af44bb83ec2169af7a5\n    NOW 300\n    RUNLIMIT 1\n    FIRE FALSE\n    CAR 1 1 10110 0 0\n    TICKETS 1\n    SLOT 1 WAITING 1 1 2\n    VAR CAR1.V 2\n    EVENTS\n    R 400 1 0 1 10110\n    S 1\n    C 1\n    E 3\n\nrefused 88 at line 9\n\nThe program C has no variable V. `serve` writes no such line. Take it out:\n\n    LIFTTRACE 3\n    CONFIGURATION 1264bc52aefc6fc1b537aadf1988bf5a128409d3dbef3af44bb83ec2169af7a5\n    NOW 300\n    RUNLIMIT 1\n    FIRE FALSE\n    CAR 1 1 10110 0 0\n    TICKETS 1\n    SLOT 1 WAITING 1 1 2\n    EVENTS\n    R 400 1 0 1 10110\n    S 1\n    C 1\n    E 3\n",
    },
    Meaning {
        number: 89,
        text: "89: the value is not of the variable's declared set\n\nIn a state a VAR line gives a variable a value outside its declared range: a number outside its subrange or its type, or a word that is no value of the type. A BOOL has TRUE or FALSE, a TIME its milliseconds.\n\nA global of the configuration, and a line of the state:\n\n    MODE : INT (0..3);        (in VAR_GLOBAL)\n    VAR MODE 4                (line 9 of the trace)\n\nrefused 89 at line 9\n\nGive the variable a value of its range, 0 to 3, or leave the line out: then it has its initial value.\n",
    },
];
