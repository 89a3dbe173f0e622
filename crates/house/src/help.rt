/// What stands behind the options in the help: the forms of a script.
pub(crate) const FORMS: &str = "The lines of a script:
  book ledger | book stock      the book of the lines below; the first is the rig's
  house N                       the house number
  roll WORD...                  more bytes of the roll
  opening CODE...               more codes of the opening
  cuts N...                     more cut numbers
  note PROCEDURE A B N          makes a note, and no more
  enter SLIP USER WORD PROCEDURE A B N
  countersign SLIP USER WORD
  withdraw SLIP
  certify WORD ROW USER PROCEDURE ROLE MASK
  strike WORD ROW
  item I                        shows an item
  record K                      shows a record of the audit
  format N                      formats again, under house number N
  attach                        attaches the drive as it stands
A '#' begins a comment. docs/HOUSE.md has the forms in full.

Status: 0 when all was answered, refused or not; 1 when a file could not be read or kept;
2 when the options are wrong.";
